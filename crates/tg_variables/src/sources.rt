use crate::functions::OwnText;
use crate::users::UserTable;
use tg_base::Place;
use tg_symbols::Table;
use tg_translate::Home;
use tg_typecheck::Notes;

/// What is known of a program: its text with the places of its bytes, what its names mean, the texts
/// of its functions, and the homes and users of its variables.
#[derive(Drop)]
pub struct Source<'a> {
    pub text: &'a [u8],
    pub places: &'a [Place],
    pub notes: &'a Notes,
    pub homes: &'a Table<Home>,
    pub texts: &'a [OwnText],
    pub users: &'a UserTable,
}
