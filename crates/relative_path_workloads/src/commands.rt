//! The commands of `relpath`.
use crate::digest::Digest;
use crate::draw::Draw;
use crate::refused;
use relpath_lib::Meter;
use relpath_lib::run::run;
use std::alloc::{AllocError, Global};
use std::io;

// The program reads at most 64 KiB.
const INPUT: usize = 65_000;

// A line isn't longer.
const LONGEST_LINE: usize = 400;

const NAMES: [&str; 12] = [
    "src",
    "docs",
    "guide",
    "assets",
    "img",
    "index.html",
    "lib.rs",
    "main.css",
    "node_modules",
    "a",
    "x.png",
    "release-notes",
];

const COMMANDS: [&str; 8] = [
    "normalize",
    "normalize",
    "join",
    "join",
    "relative",
    "relative",
    "try_relative",
    "relative_to",
];

// An input, and the offsets of a letter in each name, so that another letter makes another input.
#[derive(Drop)]
struct Input {
    bytes: Vec<u8>,
    letters: Vec<usize>,
}

// Answers so many inputs.
pub(crate) fn answer(
    alloc: Global,
    draw: &mut Draw,
    inputs: usize,
    digest: &mut Digest,
) -> io::Result<()> {
    let mut input = input_of(alloc, draw)?;
    for _ in 0..inputs {
        for at in &input.letters {
            if let Some(letter) = input.bytes.get_mut(*at) {
                *letter = letter_of(draw.below(26));
            }
        }
        let mut reader = Meter::new(input.bytes.as_slice());
        let mut writer = Meter::new(Vec::new(alloc));
        if run(alloc, &mut reader, &mut writer).is_err() {
            return Err(refused());
        }
        let output = writer.into_inner();
        if let Ok(text) = str::from_utf8(output.as_slice()) {
            digest.add(text);
        }
    }
    Ok(())
}

// A letter.
fn letter_of(number: usize) -> u8 {
    match u8::try_from(number) {
        Ok(number) if number < 26 => b'a' + number,
        _ => b'a',
    }
}

// An input.
fn input_of(alloc: Global, draw: &mut Draw) -> Result<Input, AllocError> {
    let mut text = String::with_capacity(alloc, INPUT)?;
    let mut letters = Vec::new(alloc);
    for _ in 0..INPUT {
        if text.len() >= INPUT - LONGEST_LINE {
            break;
        }
        push_line(&mut text, draw, &mut letters)?;
    }
    Ok(Input {
        bytes: text.into_bytes(),
        letters,
    })
}

// Adds a line.
fn push_line(
    text: &mut String,
    draw: &mut Draw,
    letters: &mut Vec<usize>,
) -> Result<(), AllocError> {
    let command = draw.word(&COMMANDS);
    text.push_str(command)?;
    text.push_str("\t")?;
    push_path(text, draw, letters)?;
    if command != "normalize" {
        text.push_str("\t")?;
        push_path(text, draw, letters)?;
    }
    text.push_str("\n")
}

// Adds a path of up to 9 components.
fn push_path(
    text: &mut String,
    draw: &mut Draw,
    letters: &mut Vec<usize>,
) -> Result<(), AllocError> {
    for count in 0..draw.from(1, 9) {
        if count > 0 {
            text.push_str("/")?;
        }
        match draw.below(10) {
            0 => text.push_str(".")?,
            1 | 2 => text.push_str("..")?,
            _ => {
                letters.push(text.len())?;
                text.push_str(draw.word(&NAMES))?;
            }
        }
    }
    Ok(())
}
