//! The places that clients ask for: twenty, each of which a mirror answers in its own way.
//!
//! A file's bytes are a function of its place's number, its edition and where they stand, so that what a client got is checked
//! by its number alone. An index has several editions: which one an attempt finds goes by the attempt's number.

/// How many places there are.
pub const PLACES: u64 = 20;

/// The last edition of an index.
pub const LAST_EDITION: u64 = 12;

/// How many attempts find one edition. Each download has sixteen of them.
const TURN: u64 = 640;

/// How a mirror answers.
#[derive(Clone, Copy, Debug, PartialEq, Eq)]
pub enum Kind {
    /// The whole file, with its length.
    Whole,
    /// The whole file in chunks, with its tag and date.
    Chunked,
    /// The whole file up to the connection's end, without tag and date.
    ToEnd,
    /// The whole file of an edition.
    Index,
    /// The whole file in the attempts of an even turn; in the others, that it is as it was.
    Steady,
    /// The front of the file, and then a fault; where the rest is asked for, the rest.
    GoesOn,
    /// The front of a file without tag and date, and then a fault.
    Broken,
    /// The front of a file without tag and date, and then the connection's end.
    Short,
    /// That the file is elsewhere, and there the whole file.
    Moved,
    /// That there is no such file.
    Missing,
    /// That it can't answer.
    Faulty,
    /// Not at all.
    Silent,
    /// Not at all, and it isn't asked, since files of this name aren't passed on.
    Forbidden,
}

/// A place, with the length of the first edition of its file.
#[derive(Clone, Copy, Debug)]
pub struct Place {
    pub number: u64,
    pub path: &'static str,
    pub kind: Kind,
    pub len: u64,
}

/// The place of a number.
pub fn place_of(number: u64) -> Place {
    let (path, kind, len) = row_of(number);
    Place {
        number,
        path,
        kind,
        len,
    }
}

// Path, kind and length.
fn row_of(number: u64) -> (&'static str, Kind, u64) {
    match number {
        0 => ("h/pool/a/a_1_all.deb", Kind::Whole, 3),
        1 => ("h/pool/a/b_1_all.deb", Kind::Whole, 700),
        2 => ("h/pool/a/c_1_all.deb", Kind::Whole, 40_000),
        3 => ("h/pool/a/d_1_all.deb", Kind::Whole, 0),
        4 => ("h/pool/a/e_1_all.deb", Kind::Whole, 5_000),
        5 => ("h/pool/b/f_1_all.deb", Kind::Chunked, 2_100),
        6 => ("h/pool/b/g_1_all.deb", Kind::Chunked, 1),
        7 => ("h/pool/b/h_1_all.deb", Kind::ToEnd, 900),
        8 => ("h/dists/s/InRelease", Kind::Index, 300),
        9 => ("h/dists/s/main/binary-all/Packages", Kind::Index, 4_000),
        10 => ("h/dists/s/main/i18n/Translation-en", Kind::Index, 40),
        11 => ("h/dists/t/Release", Kind::Steady, 250),
        12 => ("h/pool/c/i_1_all.deb", Kind::GoesOn, 3_000),
        13 => ("h/pool/c/j_1_all.deb", Kind::Broken, 2_000),
        14 => ("h/pool/c/k_1_all.deb", Kind::Short, 2_000),
        15 => ("h/pool/c/l_1_all.deb", Kind::Moved, 600),
        16 => ("h/pool/d/m_1_all.deb", Kind::Missing, 0),
        17 => ("h/pool/d/n_1_all.deb", Kind::Faulty, 0),
        18 => ("h/pool/d/o_1_all.deb", Kind::Silent, 0),
        _ => ("h/pool/d/p.txt", Kind::Forbidden, 0),
    }
}

/// The turn of an attempt.
pub fn turn_of(attempt: u64) -> u64 {
    (attempt / TURN).min(LAST_EDITION)
}

/// The first and the last attempt of a turn.
pub fn attempts_of(turn: u64) -> (u64, u64) {
    let first = turn.saturating_mul(TURN);
    if turn < LAST_EDITION {
        (first, first.saturating_add(TURN - 1))
    } else {
        (first, u64::MAX)
    }
}

/// Whether a mirror says in an attempt that a steady file is as it was.
pub fn is_unchanged(attempt: u64) -> bool {
    turn_of(attempt) % 2 == 1
}

impl Place {
    /// The edition that an attempt finds.
    pub fn edition(self, attempt: u64) -> u64 {
        match self.kind {
            Kind::Index => turn_of(attempt),
            _ => 0,
        }
    }

    /// The length of an edition.
    pub fn length(self, edition: u64) -> u64 {
        self.len.saturating_add(edition)
    }

    /// How many bytes of an edition a mirror has, all told.
    pub fn there(self, edition: u64) -> u64 {
        match self.kind {
            Kind::Broken | Kind::Short => self.front(),
            _ => self.length(edition),
        }
    }

    /// How many bytes come before it breaks off.
    pub fn front(self) -> u64 {
        self.len / 2
    }

    /// Whether the mirror has a file.
    pub fn has_file(self) -> bool {
        !matches!(
            self.kind,
            Kind::Missing | Kind::Faulty | Kind::Silent | Kind::Forbidden
        )
    }

    /// Whether the file can come whole.
    pub fn comes_whole(self) -> bool {
        self.has_file() && !matches!(self.kind, Kind::Broken | Kind::Short)
    }

    /// Whether the mirror tells the length at once.
    pub fn tells_length(self) -> bool {
        !matches!(self.kind, Kind::Chunked | Kind::ToEnd)
    }

    /// Whether the mirror tells a tag and a date.
    pub fn is_dated(self) -> bool {
        !matches!(self.kind, Kind::ToEnd | Kind::Broken | Kind::Short)
    }

    /// The name of its class.
    pub fn class(self) -> &'static str {
        match self.kind {
            Kind::Index | Kind::Steady => "volatile",
            _ => "solid",
        }
    }
}

/// The minute of the first hour of 1970 in which an edition was made; it was the fortieth second.
pub fn minute_of(edition: u64) -> u64 {
    edition.saturating_add(16)
}

/// A byte of an edition.
pub fn byte_of(number: u64, edition: u64, at: u64) -> u8 {
    let there = (at % 241).saturating_add(at / 241);
    let which = number
        .saturating_mul(7)
        .saturating_add(edition.saturating_mul(13));
    (there.saturating_add(which) % 251) as u8
}

/// Whether bytes are those of an edition from a place on.
pub fn are_of(bytes: &[u8], number: u64, edition: u64, from: u64) -> bool {
    for (i, byte) in bytes.iter().enumerate() {
        if *byte != byte_of(number, edition, from.saturating_add(i as u64)) {
            return false;
        }
    }
    true
}
