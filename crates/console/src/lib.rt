// What the programs share: the numbers and files that their arguments name, what they complain of, and the lines that they write.
#![tactic(auto)]

mod answers;
mod arguments;
mod complaints;
mod files;
mod lines;

pub use answers::{Answer, write_answer};
pub use arguments::{BadNumber, LONGEST, NumberArgument, argument_count, number_given};
pub use complaints::{complain, complain_of};
pub use files::{
    Untaken, complain_of_reading, open_path, path_given, read_some, recipe_room, room, take_file,
    take_front,
};
pub use lines::{end_line, line, put_bytes, put_field, refused_line, write, write_text};
