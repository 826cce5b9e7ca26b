//! Pieces of a text, and what they are read as.
ghost use Rattle.std.specs.Prelude.{◌≡◌, ◌++◌, Ok, IfOk, IfErr};
ghost use Rattle.std.specs.Char.{encode_utf8};
ghost use Rattle.target_paths.specs.Pieces.{append_read};
ghost use Rattle.target_paths.specs.Shown.{read_bytes, SaysWhy};

use crate::target::WhyUnknown;
use std::alloc::AllocError;

// The piece at the start of a text: how many bytes it has, and what it is read as.
#[derive(Clone, Copy)]
pub(crate) struct Piece {
    pub(crate) size: usize,
    pub(crate) read: Read,
}

// What a piece is read as.
#[derive(Clone, Copy)]
pub(crate) enum Read {
    Byte(u8),
    Character(char),
    // Two characters.
    Pair(char, char),
    Nothing,
    Unknown(WhyUnknown),
}

// Why a text can't be read.
#[derive(Clone, Copy)]
pub(crate) enum ReadError {
    Unknown(WhyUnknown),
    OutOfMemory,
}

impl From<AllocError> for ReadError {
    ghost use Rattle.target_paths.specs.declared.piece.ReadError.TheVariants.{OutOfMemory};

    ghost from_gives = { λ _ error. error ≡ OutOfMemory };

    fn from(_: AllocError) -> ReadError {
        ReadError::OutOfMemory
    }
}

// Adds the bytes that a piece is read as.
pub(crate) fn push_read(bytes: &mut Vec<u8>, read: Read) -> Result<(), ReadError>
    ensures ok { IfOk result (λ _. append_read (Ok bytes.old.items) (read_bytes read) ≡ Ok bytes.new.items) }
    ensures err { IfErr result (SaysWhy (read_bytes read)) }
{
    match read {
        Read::Byte(byte) => push_bytes(bytes, &[byte]),
        Read::Character(character) => push_character(bytes, character),
        Read::Pair(first, second) => push_pair(bytes, first, second),
        Read::Nothing => Ok(()),
        Read::Unknown(why) => Err(ReadError::Unknown(why)),
    }
}

fn push_character(bytes: &mut Vec<u8>, character: char) -> Result<(), ReadError>
    ensures ok { IfOk result (λ _. bytes.new.items ≡ bytes.old.items ++ encode_utf8 character) }
    ensures err { IfErr result (λ error. error ≡ ReadError.OutOfMemory) }
{
    let mut buffer = [0; 4];
    push_bytes(bytes, character.encode_utf8(&mut buffer).as_bytes())
}

fn push_pair(bytes: &mut Vec<u8>, first: char, second: char) -> Result<(), ReadError>
    ensures ok { IfOk result (λ _. bytes.new.items ≡ bytes.old.items ++ (encode_utf8 first ++ encode_utf8 second)) }
    ensures err { IfErr result (λ error. error ≡ ReadError.OutOfMemory) }
{
    push_character(bytes, first)?;
    push_character(bytes, second)
}

fn push_bytes(bytes: &mut Vec<u8>, more: &[u8]) -> Result<(), ReadError>
    ensures ok { IfOk result (λ _. bytes.new.items ≡ bytes.old.items ++ more.now) }
    ensures err { IfErr result (λ error. error ≡ ReadError.OutOfMemory) }
{
    match bytes.extend_from_slice(more) {
        Ok(()) => Ok(()),
        Err(error) => Err(ReadError::from(error)),
    }
}
