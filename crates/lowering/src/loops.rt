// Loops that are being lowered, and the places of their breaks' jumps.

ghost use Rattle.std.specs.Prelude.{◌≡◌, ◌<◌, Ok, OnErr};
ghost use Rattle.meaning.specs.LowerState.{innermost as innermost_m, enter_loop, leave_loop, add_break, land as land_m};
ghost use Rattle.lowering.specs.Fit.{placed};
ghost use Rattle.lowering.specs.View.{Did, Lent, parts, last_breaks};

use crate::emitting::patch_all;
use crate::state::Lowering;
use code::Loop;
use records::Refusal;

impl Lowering<'_, '_, '_, '_, '_, '_, '_, '_, '_, '_, '_, '_, '_> {
    // The innermost loop.
    pub fn innermost(&self) -> Option<Loop>
        ensures { Did innermost_m self.now (Ok result) self.now }
    {
        self.loops.newest()
    }

    // A loop begins: where `continue` goes, the slots that a break leaves, whether it owns the newest iterator, and
    // whether it has a break value.
    pub fn begin_loop(
        &mut self,
        top: u32,
        outside: u16,
        owns_iterator: bool,
        has_break_value: bool,
    ) -> Result<(), Refusal>
        ensures lent { Lent self.old self.new }
        ensures did { Did (enter_loop top outside owns_iterator has_break_value) self.old result self.new }
        ensures only { parts self.new ≡ record (parts self.old) { loops = self.new.loops } }
    {
        let begun = Loop {
            continue_target: top,
            break_depth: outside,
            continue_depth: self.depth(),
            iters: self.iters,
            owns_iterator,
            handlers: self.handlers,
            breaks: 0,
            has_break_value,
        };
        self.loops.push(begun).or(Err(Refusal::TooDeep))
    }

    // A loop ends; how many places its breaks have is answered.
    pub fn end_loop(&mut self) -> usize
        ensures lent { Lent self.old self.new }
        ensures did { Did leave_loop self.old (Ok result) self.new }
        ensures only { parts self.new ≡ record (parts self.old) { loops = self.new.loops } }
    {
        self.loops.pop().map_or(0, |ended| ended.breaks)
    }

    // A break's jump place joins the innermost loop's record.
    pub fn add_break(&mut self, site: u32) -> Result<(), Refusal>
        requires { last_breaks self.old < placed self.old.code.now }
        ensures lent { Lent self.old self.new }
        ensures did { Did (add_break site) self.old result self.new }
        ensures only { parts self.new ≡ record (parts self.old) { loops = self.new.loops; breaks = self.new.breaks } }
        ensures kept { OnErr result (parts self.new ≡ parts self.old) }
    {
        self.breaks.push(site)?;
        if let Some(l) = self.loops.newest() {
            self.loops.replace_newest(Loop {
                breaks: l.breaks + 1,
                ..l
            });
        }
        Ok(())
    }

    // The newest so many break places are pointed at the next operation and given back.
    pub fn land(&mut self, count: usize)
        ensures lent { Lent self.old self.new }
        ensures did { Did (land_m count) self.old (Ok result) self.new }
        ensures only { parts self.new ≡ record (parts self.old) { code = self.new.code; breaks = self.new.breaks } }
    {
        let target = self.here();
        let first = self.breaks.count().saturating_sub(count);
        let sites = self.breaks.as_slice();
        patch_all(&mut *self.code, &sites[first..], target);
        self.breaks.truncate(first);
    }
}
