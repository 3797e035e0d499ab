// Operations and counters.

ghost use Rattle.std.specs.Prelude.{◌≡◌, ℕ, suc, pred, ◌<◌, Ok, OnErr};
ghost use Rattle.meaning.specs.LowerState.{emit_at, emit as emit_m, here as here_m, holding, patch, patch_all, patch_to, patch_here, set_iters, set_handlers};
ghost use Rattle.meaning.specs.Lower.{emit_if, emits, patch_if};
ghost use Rattle.tables.specs.Stacks.{SameLent, contents};
ghost use Rattle.lowering.specs.Fit.{most, placed};
ghost use Rattle.lowering.specs.View.{Did, Lent, parts, Grew, Steady};

use crate::state::{Code, Lowering};
use code::{Instr, Op};
use records::{Position, Refusal};
use targets::retarget;

// The jump at a place is pointed at a target.
fn patch(code: &mut Code, site: u32, target: u32)
    ensures lent { SameLent most code.old code.new }
    ensures did { contents most code.new ≡ holding (patch site target (contents most code.old).held) (contents most code.old) }
    ensures steady { placed code.new ≡ placed code.old }
{
    let site = site as usize;
    if site < code.count() {
        let Instr { op, at } = code.get(site);
        let op = retarget(op, target);
        code.set(site, Instr { op, at });
    }
}

// All the jumps at some places are.
pub(crate) fn patch_all(code: &mut Code, sites: &[u32], target: u32)
    ensures lent { SameLent most code.old code.new }
    ensures did { contents most code.new ≡ holding (patch_all sites.now target (contents most code.old).held) (contents most code.old) }
    ensures steady { placed code.new ≡ placed code.old }
{
    for site in sites {
        patch(code, *site, target);
    }
}

impl Lowering<'_, '_, '_, '_, '_, '_, '_, '_, '_, '_, '_, '_, '_> {
    // One operation more, at a position; its place is answered.
    pub fn emit_at(&mut self, op: Op, at: Position) -> Result<u32, Refusal>
        ensures lent { Lent self.old self.new }
        ensures did { Did (emit_at op at) self.old result self.new }
        ensures grew { Grew self.old result self.new }
        ensures only { parts self.new ≡ record (parts self.old) { code = self.new.code } }
        ensures kept { OnErr result (parts self.new ≡ parts self.old) }
    {
        let place = self.code.push(Instr { op, at })?;
        Ok(place as u32)
    }

    // One operation more, without a position.
    pub fn emit(&mut self, op: Op) -> Result<u32, Refusal>
        ensures lent { Lent self.old self.new }
        ensures did { Did (emit_m op) self.old result self.new }
        ensures grew { Grew self.old result self.new }
        ensures only { parts self.new ≡ record (parts self.old) { code = self.new.code } }
        ensures kept { OnErr result (parts self.new ≡ parts self.old) }
    {
        self.emit_at(op, Position::NONE)
    }

    // An operation, if a test holds.
    pub fn emit_if(&mut self, wanted: bool, op: Op) -> Result<(), Refusal>
        ensures lent { Lent self.old self.new }
        ensures did { Did (emit_if wanted op) self.old result self.new }
        ensures only { parts self.new ≡ record (parts self.old) { code = self.new.code } }
    {
        if wanted {
            self.emit(op)?;
        }
        Ok(())
    }

    // So many times the same operation.
    pub fn emit_times(&mut self, times: usize, op: Op) -> Result<(), Refusal>
        ensures lent { Lent self.old self.new }
        ensures did { Did (emits times op) self.old result self.new }
        ensures only { parts self.new ≡ record (parts self.old) { code = self.new.code } }
    {
        for _i in 0..times {
            self.emit(op)?;
        }
        Ok(())
    }

    // The place of the next operation.
    pub fn here(&self) -> u32
        ensures { Did here_m self.now (Ok result) self.now }
    {
        self.code.count() as u32
    }

    // The jump at a place is pointed at a target.
    pub fn patch_to(&mut self, site: u32, target: u32)
        ensures lent { Lent self.old self.new }
        ensures did { Did (patch_to site target) self.old (Ok result) self.new }
        ensures steady { Steady self.old self.new }
        ensures only { parts self.new ≡ record (parts self.old) { code = self.new.code } }
    {
        patch(&mut *self.code, site, target);
    }

    // The jump at a place is pointed at the next operation.
    pub fn patch_here(&mut self, site: u32)
        ensures lent { Lent self.old self.new }
        ensures did { Did (patch_here site) self.old (Ok result) self.new }
        ensures steady { Steady self.old self.new }
        ensures only { parts self.new ≡ record (parts self.old) { code = self.new.code } }
    {
        let target = self.here();
        self.patch_to(site, target);
    }

    // The same for a jump that may not be there.
    pub fn patch_here_if(&mut self, site: Option<u32>)
        ensures lent { Lent self.old self.new }
        ensures did { Did (patch_if site) self.old (Ok result) self.new }
        ensures only { parts self.new ≡ record (parts self.old) { code = self.new.code } }
    {
        if let Some(site) = site {
            self.patch_here(site);
        }
    }

    // Iterators and handlers have steps of their own: each is one line, and a shared one would only be handed the counter.

    // One live iterator more, once its operation is there; one less.
    pub fn begin_iterator(&mut self)
        requires { self.old.iters < placed self.old.code.now }
        ensures lent { Lent self.old self.new }
        ensures did { Did (set_iters suc) self.old (Ok self.old.iters) self.new }
        ensures only { parts self.new ≡ record (parts self.old) { iters = self.new.iters } }
    {
        self.iters += 1;
    }

    pub fn end_iterator(&mut self)
        ensures lent { Lent self.old self.new }
        ensures did { Did (set_iters pred) self.old (Ok self.old.iters) self.new }
        ensures only { parts self.new ≡ record (parts self.old) { iters = self.new.iters } }
    {
        self.iters = self.iters.saturating_sub(1);
    }

    // One `try` region more around, once an operation for it is there; one less.
    pub fn begin_handler(&mut self)
        requires { self.old.handlers < placed self.old.code.now }
        ensures lent { Lent self.old self.new }
        ensures did { Did (set_handlers suc) self.old (Ok self.old.handlers) self.new }
        ensures only { parts self.new ≡ record (parts self.old) { handlers = self.new.handlers } }
    {
        self.handlers += 1;
    }

    pub fn end_handler(&mut self)
        ensures lent { Lent self.old self.new }
        ensures did { Did (set_handlers pred) self.old (Ok self.old.handlers) self.new }
        ensures only { parts self.new ≡ record (parts self.old) { handlers = self.new.handlers } }
    {
        self.handlers = self.handlers.saturating_sub(1);
    }
}
