// The symbols of words, and the records of crossing tables.
ghost use Rattle.std.specs.Prelude.{◌≡◌, [], ◌∷◌, Some};
ghost use Rattle.symbols.specs.Symbols.{code, letter, coded, lettered, or_unknown};

use crate::unknown::Unknown;
use std::fmt;

// One symbol of a word: `+` `=` `[` `]` `(` `Y` `)`.
#[derive(Clone, Copy, PartialEq, Eq, Debug)]
pub enum Symbol {
    Corner,
    DeadEnd,
    SplitOpen,
    SplitClose,
    JunctionOpen,
    Branch,
    JunctionClose,
}

// The symbol that a character stands for, if it stands for one.
impl TryFrom<char> for Symbol {
    type Error = Unknown<char>;

    ghost try_from_gives = { λ c r. r ≡ or_unknown c (lettered c) };

    fn try_from(c: char) -> Result<Symbol, Unknown<char>> {
        match c {
            '+' => Ok(Symbol::Corner),
            '=' => Ok(Symbol::DeadEnd),
            '[' => Ok(Symbol::SplitOpen),
            ']' => Ok(Symbol::SplitClose),
            '(' => Ok(Symbol::JunctionOpen),
            'Y' => Ok(Symbol::Branch),
            ')' => Ok(Symbol::JunctionClose),
            _ => Err(Unknown(c)),
        }
    }
}

// The character of a symbol.
impl From<Symbol> for char {
    ghost from_gives = { λ s c. c ≡ letter s };

    fn from(symbol: Symbol) -> char {
        match symbol {
            Symbol::Corner => '+',
            Symbol::DeadEnd => '=',
            Symbol::SplitOpen => '[',
            Symbol::SplitClose => ']',
            Symbol::JunctionOpen => '(',
            Symbol::Branch => 'Y',
            Symbol::JunctionClose => ')',
        }
    }
}

// The symbol with a code, if the code is one of 0 to 6.
impl TryFrom<u8> for Symbol {
    type Error = Unknown<u8>;

    ghost try_from_gives = { λ n r. r ≡ or_unknown n (coded n) };

    fn try_from(code: u8) -> Result<Symbol, Unknown<u8>> {
        match code {
            0 => Ok(Symbol::Corner),
            1 => Ok(Symbol::DeadEnd),
            2 => Ok(Symbol::SplitOpen),
            3 => Ok(Symbol::SplitClose),
            4 => Ok(Symbol::JunctionOpen),
            5 => Ok(Symbol::Branch),
            6 => Ok(Symbol::JunctionClose),
            _ => Err(Unknown(code)),
        }
    }
}

// The code of a symbol, 0 to 6.
impl From<Symbol> for u8 {
    ghost from_gives = { λ s n. n ≡ code s };

    fn from(symbol: Symbol) -> u8 {
        symbol as u8
    }
}

// A symbol is printed as its character.
impl fmt::Display for Symbol {
    ghost output = { λ s. Some (letter s ∷ []) };

    fn fmt<W: fmt::Write>(&self, f: &mut fmt::Formatter<W>) -> fmt::Result {
        f.write_str(match self {
            Symbol::Corner => "+",
            Symbol::DeadEnd => "=",
            Symbol::SplitOpen => "[",
            Symbol::SplitClose => "]",
            Symbol::JunctionOpen => "(",
            Symbol::Branch => "Y",
            Symbol::JunctionClose => ")",
        })
    }
}

// One record of a crossing table: its road by its code, which may be wrong, the number of its group, and whether the group has a vertex.
#[derive(Clone, Copy, PartialEq, Eq, Debug)]
pub struct Crossing {
    pub road: u8,
    pub group: u16,
    pub vertex: bool,
}

// An open mark while a word is read, with the crossing at which it opened: `[` or `(`.
#[derive(Clone, Copy)]
pub enum Mark {
    Split(u16),
    Junction(u16),
}
