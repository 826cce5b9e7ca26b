/// The characters that a name stands for.
#[derive(Clone, Copy, Debug, PartialEq, Eq)]
pub enum Characters {
    /// One character.
    One(char),
    /// Two characters, one after another.
    Two(char, char),
}
