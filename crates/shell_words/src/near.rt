//! How near a word is to another one that a user may have meant.

/// How near a word is to another one.
#[derive(Clone, Copy)]
pub enum Nearness {
    /// It is the same but for small and capital letters.
    Same,
    /// One letter is more, less or another one, or two neighbours changed places.
    Letter,
    /// One of both begins with the other.
    Beginning,
    Far,
}

impl Nearness {
    fn rank(self) -> u8 {
        match self {
            Nearness::Same => 0,
            Nearness::Letter => 1,
            Nearness::Beginning => 2,
            Nearness::Far => 3,
        }
    }

    /// Whether this is nearer.
    pub fn is_nearer(self, other: Nearness) -> bool {
        self.rank() < other.rank()
    }
}

// Of a shorter word too many others differ in a letter.
const LETTERS: usize = 3;

// Two words without what both begin with.
fn behind_shared<'a>(word: &'a [u8], other: &'a [u8]) -> (&'a [u8], &'a [u8]) {
    let (mut mine, mut theirs) = (word, other);
    for _ in 0..word.len() {
        match (mine, theirs) {
            ([a, rest @ ..], [b, others @ ..]) if a == b => (mine, theirs) = (rest, others),
            _ => break,
        }
    }
    (mine, theirs)
}

// Whether words that begin with different letters are one letter apart.
fn differ_in_letter(word: &[u8], other: &[u8]) -> bool {
    match (word, other) {
        ([_, rest @ ..], others) if rest == others => true,
        (rest, [_, others @ ..]) if rest == others => true,
        ([_, rest @ ..], [_, others @ ..]) if rest == others => true,
        ([a, b, rest @ ..], [c, d, others @ ..]) => a == d && b == c && rest == others,
        _ => false,
    }
}

fn is_same(word: &[u8], other: &[u8]) -> bool {
    if word.len() != other.len() {
        return false;
    }
    for (mine, theirs) in word.iter().zip(other) {
        if mine.to_ascii_lowercase() != theirs.to_ascii_lowercase() {
            return false;
        }
    }
    true
}

/// How near a word is to another one.
pub fn how_near(word: &[u8], other: &[u8]) -> Nearness {
    if is_same(word, other) {
        return Nearness::Same;
    }
    if word.len() < LETTERS || other.len() < 2 {
        return Nearness::Far;
    }
    let (mine, theirs) = behind_shared(word, other);
    if differ_in_letter(mine, theirs) {
        Nearness::Letter
    } else if mine.is_empty() || theirs.is_empty() && other.len() >= LETTERS {
        Nearness::Beginning
    } else {
        Nearness::Far
    }
}
