// What a line of a text is.
use crate::names::Name;

/// What a line of a text is.
#[derive(Clone, Copy)]
pub enum Item {
    /// A line with no word, which may have a note.
    Blank,
    /// A label: a name for the place of the next word.
    Label(Name),
    /// This word.
    Word(u64),
    /// A jump to a label: the lower half of its word. The upper half is the distance to the label.
    Jump(u32, Name),
}
