// What was typed.
use arc_data::Txt;

/// The newest key, the text that is being typed, and the name that was typed to log in with.
#[derive(Clone, Copy)]
pub struct Keyboard {
    pub last: Option<u8>,
    pub typed: Txt,
    pub name: Option<Txt>,
}
