//! Words, the transcript: takes notes of a run, gives their lines. `line_of` is exactly the line of a note.
#![tactic(auto)]

mod line;
mod note;
mod notes;
mod reason;
mod reason_text;

pub use line::line_of;
pub use note::Note;
pub use notes::Notes;
pub use reason::Reason;
