// Names by their bytes.

ghost use Rattle.std.specs.Prelude.{◌≡◌};
ghost use Rattle.records.specs.Tree.{records, name_of};
ghost use Rattle.meaning.specs.Reading.{same_bytes};
ghost use Rattle.meaning.specs.Fed.{place_from};
ghost use Rattle.writers.specs.Write.{words};

use crate::named::Named;
use records::Script;

// Has a label's name these bytes?
fn is_named(script: &Script, label: u32, name: &[u8]) -> bool
    ensures { result ≡ same_bytes (name_of (records script.now) label).bytes name.now }
{
    script.name(label) == name
}

// The number of a label's name: the first place of the name table that has its bytes.
pub fn number_of(named: &Named, label: u32) -> Option<u32>
    ensures { result ≡ place_from (name_of (records named.now.script) label).bytes 0 (words named.now) }
{
    let script = &named.script;
    let name = script.name(label);
    let place = named
        .names
        .iter()
        .position(|other| is_named(script, *other, name));
    place.map(|place| place as u32)
}
