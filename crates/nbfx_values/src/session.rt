//! The modes and encodings of sessions.

ghost use Rattle.std.specs.Prelude.{◌≡◌};
ghost use Rattle.nbfx_values.specs.Session.{content_type, encoding_kind, kind_number, mode_number};

/// How the two ends of a session send messages: what the Mode Record of MC-NMF names.
#[derive(Clone, Copy, Debug, PartialEq, Eq)]
pub enum Mode {
    /// Singleton-unsized, 1: one unsized envelope each way.
    Singleton,
    /// Duplex, 2: any number of sized envelopes both ways.
    Duplex,
    /// Simplex, 3: any number of sized envelopes, from the initiator alone.
    Simplex,
}

impl Mode {
    /// The byte of a Mode Record for it.
    pub fn number(&self) -> u8
        ensures { result ≡ mode_number self.now }
    {
        match self {
            Mode::Singleton => 1,
            Mode::Duplex => 2,
            Mode::Simplex => 3,
        }
    }
}

/// The encoding of a session's envelopes: what the Known Encoding Record of MC-NMF names, of its
/// binary ones.
#[derive(Clone, Copy, Debug, PartialEq, Eq)]
pub enum Kind {
    /// Encoding 7, MC-NBFS: identifiers name strings of the static dictionary alone.
    Plain,
    /// Encoding 8, MC-NBFSE: identifiers name strings of the static dictionary, and of those that
    /// the session's envelopes bring.
    Session,
}

impl Kind {
    /// The byte of a Known Encoding Record for it.
    pub fn number(&self) -> u8
        ensures { result ≡ kind_number self.now }
    {
        match self {
            Kind::Plain => 7,
            Kind::Session => 8,
        }
    }

    /// The content type by which an Extensible Encoding Record names it.
    pub fn content_type(&self) -> &'static str
        ensures { result.now ≡ content_type self.now }
    {
        match self {
            Kind::Plain => "application/soap+msbin1",
            Kind::Session => "application/soap+msbinsession1",
        }
    }
}

/// How a preamble says which encoding the envelopes have.
#[derive(Clone, Copy, Debug, PartialEq, Eq)]
pub enum Encoding {
    /// By its number, in a Known Encoding Record.
    Known(Kind),
    /// By its content type, in an Extensible Encoding Record.
    Extensible(Kind),
}

impl Encoding {
    /// The encoding that it names.
    pub fn kind(&self) -> Kind
        ensures { result ≡ encoding_kind self.now }
    {
        match self {
            Encoding::Known(kind) | Encoding::Extensible(kind) => *kind,
        }
    }
}
