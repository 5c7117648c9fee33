//! How texts of lists are cut into pieces, and what their readers and printers share.

mod blanks;
mod bytes;
mod decimal;
mod digits;
mod laws;
mod letters;
mod list;
mod parts;
mod pieces;
mod shown;

pub use blanks::{skip_blanks, split_word, trim_blanks};
pub use bytes::put_bytes;
pub use decimal::{read_decimal, read_decimal_until};
pub use digits::{push_decimal, put_decimal};
pub use laws::texts_spell_one_list;
pub use letters::{Letter, push_letters, read_letters};
pub use list::{ListFault, PieceReader, read_list};
pub use parts::{Parts, before_byte};
pub use pieces::Pieces;
pub use shown::{is_printable, octal, push_shown, shown_front};
