// Names by their labels.

ghost use Rattle.std.specs.Prelude.{◌≡◌};
ghost use Rattle.records.specs.Tree.{records, name_of};

use crate::types::Script;

impl<'a> Script<'a> {
    // The bytes of a label's name: none for a label that is not there, and none past the text's end.
    pub fn name(&self, label: u32) -> &'a [u8]
        ensures { result.now ≡ (name_of (records self.now) label).bytes }
    {
        let text = self.text;
        let label = self.labels.get(label as usize).copied().unwrap_or_default();
        let start = (label.start as usize).min(text.len());
        let end = (start + label.length as usize).min(text.len());
        &text[start..end]
    }
}
