//! The first line of a connection, byte by byte.
ghost use Rattle.std.specs.Prelude.{◌≡◌, ◌≢◌, ◌↔◌, ◌<◌, ◌≤◌, ℕ, List, [], ◌∷◌, ◌++◌, length, take, IsTrue};
ghost use Rattle.first_line.specs.Foreign.{IsForeignBehind, HasMark, IsForeign};
ghost use Rattle.first_line.specs.Own.{own_part};

// The first byte of a TLS connection: a handshake.
const HANDSHAKE: u8 = 0x16;

/// What is known of the first line so far.
#[derive(Debug, Clone, Copy, PartialEq, Eq)]
pub enum FirstLine {
    /// Nothing.
    Nothing,
    /// It isn't whole, and doesn't end with any of the following.
    Open,
    /// It ends with a space.
    Space,
    /// It ends with ` H`.
    H,
    /// It ends with ` HT`.
    Ht,
    /// It ends with ` HTT`.
    Htt,
    /// It ends with ` HTTP`.
    Http,
    /// It is another protocol's.
    Foreign,
    /// It is whole, and no other protocol's.
    Own,
}

impl FirstLine {
    /// Nothing came.
    pub fn new() -> FirstLine
        ensures nothing { result ≡ FirstLine.Nothing }
        ensures foreign { (bytes : List ℕ) → IsForeignBehind result bytes ↔ IsForeign bytes }
    {
        FirstLine::Nothing
    }

    /// How many of these bytes are the connection's own: those before the first one with which the line is another protocol's. Also what
    /// the line is once they came.
    pub fn take_own(self, bytes: &[u8]) -> (usize, FirstLine)
        ensures heard { (more : List ℕ) → IsForeignBehind self (bytes.now ++ more) ↔ IsForeignBehind result.1 more }
        ensures few { result.0 ≤ length bytes.now }
        ensures own { (more : List ℕ) → own_part self (bytes.now ++ more) ≡ take result.0 bytes.now ++ own_part result.1 more }
        ensures cut { result.0 < length bytes.now → (more : List ℕ) → own_part result.1 more ≡ [] }
    {
        match self {
            FirstLine::Own => (bytes.len(), self),
            _ => self.walk(bytes),
        }
    }

    // The same, byte by byte.
    fn walk(self, bytes: &[u8]) -> (usize, FirstLine)
        ensures heard { (more : List ℕ) → IsForeignBehind self (bytes.now ++ more) ↔ IsForeignBehind result.1 more }
        ensures few { result.0 ≤ length bytes.now }
        ensures own { (more : List ℕ) → own_part self (bytes.now ++ more) ≡ take result.0 bytes.now ++ own_part result.1 more }
        ensures cut { result.0 < length bytes.now → (more : List ℕ) → own_part result.1 more ≡ [] }
    {
        let mut line = self;
        for (count, byte) in bytes.iter().enumerate() {
            line = line.step(*byte);
            if line.is_foreign() {
                return (count, line);
            }
        }
        (bytes.len(), line)
    }

    /// Whether it is another protocol's, whatever comes.
    pub fn is_foreign(self) -> bool
        ensures known { IsTrue result ↔ IsForeignBehind self [] }
        ensures silent { IsTrue result → (more : List ℕ) → own_part self more ≡ [] }
    {
        matches!(self, FirstLine::Foreign)
    }

    // What it is once this byte came.
    fn step(self, byte: u8) -> FirstLine
        ensures { (more : List ℕ) → IsForeignBehind self (byte ∷ more) ↔ IsForeignBehind result more }
    {
        match self {
            FirstLine::Foreign => FirstLine::Foreign,
            FirstLine::Own => FirstLine::Own,
            FirstLine::Nothing if byte == HANDSHAKE => FirstLine::Foreign,
            FirstLine::Space if byte == b'H' => FirstLine::H,
            FirstLine::H if byte == b'T' => FirstLine::Ht,
            FirstLine::Ht if byte == b'T' => FirstLine::Htt,
            FirstLine::Htt if byte == b'P' => FirstLine::Http,
            FirstLine::Http if byte == b'/' => FirstLine::Foreign,
            FirstLine::Nothing
            | FirstLine::Open
            | FirstLine::Space
            | FirstLine::H
            | FirstLine::Ht
            | FirstLine::Htt
            | FirstLine::Http => go_on(byte),
        }
    }
}

// What an open line is once this byte came, if it isn't the next one of a ` HTTP/` that has begun. It may begin one, by its space.
fn go_on(byte: u8) -> FirstLine
    ensures { (more : List ℕ) → HasMark (byte ∷ more) ↔ IsForeignBehind result more }
{
    match byte {
        b' ' => FirstLine::Space,
        b'\n' => FirstLine::Own,
        _ => FirstLine::Open,
    }
}
