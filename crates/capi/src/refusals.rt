// Why a call has no answer: FORMAT.md's refusals, each made from the errors of the libraries.
ghost use Rattle.std.specs.Prelude.{◌≡◌};
ghost use Rattle.form.specs.Refusals.{BadPlace as AtBadPlace, BadIndex as NoIndex, refusal_number, refusal_values};
ghost use Rattle.payload.specs.Answers.{refusal_of as refusal_of_token};
ghost use Rattle.lexer.specs.Calls.{refusal_of as refusal_of_call};
ghost use Rattle.source.specs.Answers.{refusal_of as refusal_of_source};
ghost use Rattle.writer.specs.Writes.{write_refusal};
ghost use Rattle.normaliser.specs.Answers.{normal_refusal, rescue_refusal};
ghost use Rattle.listing.specs.Answers.{list_refusal};
ghost use Rattle.contents.specs.Answers.{fill_refusal, read_refusal, write_refusal as file_refusal};
ghost use Rattle.capi.specs.Code.{refusal_as};

use crate::codes;
use crate::words::Words;
use contents::{BadIndex, FillError, ReadError, WriteError as FileError};
use lexer::LexerError;
use listing::ListError;
use normaliser::{NormalError, RescueError};
use payload::{LexError, LexErrorAt};
use source::ParserError;
use token::BadPlace;
use writer::WriteError;

// A position, and with Eof how many bytes are missing there; or a number that is needed or too large.
#[derive(Clone, Copy, Debug, PartialEq, Eq)]
pub(crate) enum Refusal {
    Eof(usize, usize),
    InvalidRgb(usize),
    LongString(usize),
    WideLookup(usize),
    ReservedId(usize),
    NoRoom(usize),
    BufferTooSmall(usize),
    ReadFailed(usize),
    BadPlace(usize),
    TooLong(usize),
    ListFull(usize),
    BadIndex,
}

impl Refusal {
    // Its number in include/stivlaheim.h.
    #[tactic(auto, unfolding(form::specs::Refusals::refusal_number))]
    pub(crate) fn number(self) -> u32
        ensures { result ≡ refusal_number (refusal_as self) }
    {
        match self {
            Refusal::Eof(_, _) => codes::EOF,
            Refusal::InvalidRgb(_) => codes::INVALID_RGB,
            Refusal::LongString(_) => codes::LONG_STRING,
            Refusal::WideLookup(_) => codes::WIDE_LOOKUP,
            Refusal::ReservedId(_) => codes::RESERVED_ID,
            Refusal::NoRoom(_) => codes::NO_ROOM,
            Refusal::BufferTooSmall(_) => codes::BUFFER_TOO_SMALL,
            Refusal::ReadFailed(_) => codes::READ_FAILED,
            Refusal::BadPlace(_) => codes::BAD_PLACE,
            Refusal::TooLong(_) => codes::TOO_LONG,
            Refusal::ListFull(_) => codes::LIST_FULL,
            Refusal::BadIndex => codes::BAD_INDEX,
        }
    }
}

impl Words for Refusal {
    ghost words = { λ x. refusal_values (refusal_as x) };

    #[tactic(auto, unfolding(form::specs::Refusals::refusal_values))]
    fn words(self) -> [u64; 7] {
        match self {
            Refusal::Eof(at, missing) => [at as u64, missing as u64, 0, 0, 0, 0, 0],
            Refusal::InvalidRgb(at) => at.words(),
            Refusal::LongString(at) => at.words(),
            Refusal::WideLookup(at) => at.words(),
            Refusal::ReservedId(at) => at.words(),
            Refusal::NoRoom(need) => need.words(),
            Refusal::BufferTooSmall(at) => at.words(),
            Refusal::ReadFailed(at) => at.words(),
            Refusal::BadPlace(at) => at.words(),
            Refusal::TooLong(len) => len.words(),
            Refusal::ListFull(need) => need.words(),
            Refusal::BadIndex => ().words(),
        }
    }
}

impl From<LexErrorAt> for Refusal {
    ghost from_gives = { λ e r. refusal_as r ≡ refusal_of_token e };

    #[tactic(auto, unfolding(form::specs::Refusals::refusal_at))]
    fn from(e: LexErrorAt) -> Refusal {
        match e.kind {
            LexError::Eof(missing) => Refusal::Eof(e.at, missing),
            LexError::InvalidRgb => Refusal::InvalidRgb(e.at),
        }
    }
}

impl From<BadPlace> for Refusal {
    ghost from_gives = { λ e r. refusal_as r ≡ AtBadPlace e.0 };

    fn from(e: BadPlace) -> Refusal {
        Refusal::BadPlace(e.0)
    }
}

impl From<lexer::Refusal> for Refusal {
    ghost from_gives = { λ e r. refusal_as r ≡ refusal_of_call e };

    #[tactic(auto, unfolding(lexer::specs::Calls::refusal_of))]
    fn from(e: lexer::Refusal) -> Refusal {
        match e {
            lexer::Refusal::Lexed(LexerError { position: at, kind }) => {
                LexErrorAt { at, kind }.into()
            }
            lexer::Refusal::BadPlace(at) => Refusal::BadPlace(at),
        }
    }
}

impl From<ParserError> for Refusal {
    ghost from_gives = { λ e r. refusal_as r ≡ refusal_of_source e };

    fn from(e: ParserError) -> Refusal {
        match e {
            ParserError::Eof(at, missing) => Refusal::Eof(at, missing),
            ParserError::InvalidRgb(at) => Refusal::InvalidRgb(at),
            ParserError::BufferTooSmall(at) => Refusal::BufferTooSmall(at),
            ParserError::ReadFailed(at) => Refusal::ReadFailed(at),
            ParserError::BadPlace(at) => Refusal::BadPlace(at),
        }
    }
}

impl From<WriteError> for Refusal {
    ghost from_gives = { λ e r. refusal_as r ≡ write_refusal e };

    fn from(e: WriteError) -> Refusal {
        match e {
            WriteError::LongString(at) => Refusal::LongString(at),
            WriteError::WideLookup(at) => Refusal::WideLookup(at),
            WriteError::ReservedId(at) => Refusal::ReservedId(at),
            WriteError::NoRoom(need) => Refusal::NoRoom(need),
            WriteError::BadPlace(at) => Refusal::BadPlace(at),
        }
    }
}

impl From<NormalError> for Refusal {
    ghost from_gives = { λ e r. refusal_as r ≡ normal_refusal e };

    fn from(e: NormalError) -> Refusal {
        match e {
            NormalError::Refused(e) => e.into(),
            NormalError::WideLookup(at) => Refusal::WideLookup(at),
            NormalError::NoRoom(need) => Refusal::NoRoom(need),
            NormalError::TooLong(len) => Refusal::TooLong(len),
        }
    }
}

impl From<RescueError> for Refusal {
    ghost from_gives = { λ e r. refusal_as r ≡ rescue_refusal e };

    fn from(e: RescueError) -> Refusal {
        match e {
            RescueError::NoRoom(need) => Refusal::NoRoom(need),
            RescueError::TooLong(len) => Refusal::TooLong(len),
        }
    }
}

impl From<ListError> for Refusal {
    ghost from_gives = { λ e r. refusal_as r ≡ list_refusal e };

    fn from(e: ListError) -> Refusal {
        match e {
            ListError::NoRoom(need) => Refusal::NoRoom(need),
            ListError::TooLong(len) => Refusal::TooLong(len),
        }
    }
}

impl From<FillError> for Refusal {
    ghost from_gives = { λ e r. refusal_as r ≡ fill_refusal e };

    fn from(e: FillError) -> Refusal {
        match e {
            FillError::Refused(e) => e.into(),
            FillError::ListFull(need) => Refusal::ListFull(need),
            FillError::TooLong(len) => Refusal::TooLong(len),
        }
    }
}

impl From<ReadError> for Refusal {
    ghost from_gives = { λ e r. refusal_as r ≡ read_refusal e };

    fn from(e: ReadError) -> Refusal {
        match e {
            ReadError::BadIndex => Refusal::BadIndex,
            ReadError::ListFull(need) => Refusal::ListFull(need),
        }
    }
}

impl From<FileError> for Refusal {
    ghost from_gives = { λ e r. refusal_as r ≡ file_refusal e };

    fn from(e: FileError) -> Refusal {
        match e {
            FileError::BadIndex => Refusal::BadIndex,
            FileError::TooLong(len) => Refusal::TooLong(len),
            FileError::NoRoom(need) => Refusal::NoRoom(need),
        }
    }
}

impl From<BadIndex> for Refusal {
    ghost from_gives = { λ _ r. refusal_as r ≡ NoIndex };

    fn from(_e: BadIndex) -> Refusal {
        Refusal::BadIndex
    }
}
