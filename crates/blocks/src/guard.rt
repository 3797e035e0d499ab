ghost use Rattle.std.specs.Prelude.{◌≡◌};
ghost use Rattle.lowering.specs.View.{parts};

use lowering::{Level, Lowering};

// A block that is being lowered: the level of what is around is put back when this ends, however the block is left.
pub struct Deeper<'c, 's, 'd, 'da, 'r, 'ra, 'n, 'na, 'o, 'oa, 'l, 'la, 'b, 'ba> {
    pub lowering: &'c mut Lowering<'s, 'd, 'da, 'r, 'ra, 'n, 'na, 'o, 'oa, 'l, 'la, 'b, 'ba>,
    pub around: Level,
}

impl Drop for Deeper<'_, '_, '_, '_, '_, '_, '_, '_, '_, '_, '_, '_, '_, '_> {
    fn drop(self)
        ensures { parts self.exit.0.now ≡ record (parts self.entry.lowering.now) { block = self.entry.around } }
    {
        self.lowering.block = self.around;
        let Deeper {
            lowering: _,
            around: _,
        } = self;
    }
}
