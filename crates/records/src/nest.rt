// The statements that are open while nodes are gone through in order.

ghost use Rattle.std.specs.Prelude.{◌≡◌};
ghost use Rattle.records.specs.Checks.{closed, limit_of};
ghost use Rattle.stack64.specs.Listed.{listed};

use stack64::Stack64;

// An open statement: the end of the block that is being filled, and its own end.
#[derive(Clone, Copy, Default)]
pub struct Open {
    pub limit: usize,
    pub end: usize,
}

// The end of the block that is being filled, of a table of so many records.
pub fn limit(nest: &Stack64<Open>, records: usize) -> usize
    ensures { result ≡ limit_of records (listed nest.now) }
{
    nest.newest().map_or(records, |open| open.limit)
}

// At record i: a full body is followed by the branch, a full statement is closed.
pub fn close(nest: &mut Stack64<Open>, i: usize)
    ensures { listed nest.new ≡ closed i (listed nest.old) }
{
    while let Some(open) = nest.newest() {
        if open.limit != i {
            return;
        }
        if open.end != i {
            nest.replace_newest(Open {
                limit: open.end,
                ..open
            });
            return;
        }
        nest.pop();
    }
}
