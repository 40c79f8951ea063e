//! Quotas, and what a reading end holds against them.

ghost use Rattle.nbfx_values.specs.Limits.{IsGood, limits};

// The quotas of a stack that nobody has set otherwise.
const USUAL_PAYLOAD: u32 = 65_536;

const USUAL_DEPTH: u32 = 32;

const USUAL_DICTIONARY: u32 = 2_048;

const USUAL_CONTENT: u32 = 262_144;

const USUAL_VIA: u32 = 2_048;

const USUAL_SESSION: u64 = 1 << 48;

/// What a reader or writer of sessions admits; valid by its type. Sizes are in bytes.
#[derive(Clone, Copy, Debug, PartialEq, Eq)]
pub struct Quotas {
    /// The most bytes of one envelope's payload: 4,096 to 16,777,216.
    pub payload: u32,
    /// The most elements that are open at one moment, an array's element included: 4 to 1,024.
    pub depth: u32,
    /// The most that the session strings of one direction cost: at most the payload quota, and at
    /// most 1,048,576.
    pub dictionary: u32,
    /// The greatest [content](crate::Doc::content) of one document: the payload quota to
    /// 67,108,864.
    pub content: u32,
    /// The most bytes of a Via, or of a Fault's text: 16 to 2,048.
    pub via: u32,
    /// The most bytes that are read in one session: 1 to 2^48.
    pub session: u64,
    pub ghost good: { IsGood (limits payload depth dictionary content via session) },
}

impl Quotas {
    ghost use Rattle.std.specs.Prelude.{◌^◌, ◌↔◌, ◌≡◌, IfSome, IsSome};
    ghost use Rattle.nbfx_values.specs.Limits.{IsGood, limits, usual_limits};
    ghost use Rattle.nbfx_values.specs.QuotasOf.{limits_of};

    /// The default quotas: 65,536 bytes of payload, depth 32, 2,048 of session strings, 262,144 of
    /// content, 2,048 bytes of a Via, and 2^48 bytes of a session.
    pub fn usual() -> Quotas
        ensures { limits_of result ≡ usual_limits }
    {
        Quotas {
            payload: USUAL_PAYLOAD,
            depth: USUAL_DEPTH,
            dictionary: USUAL_DICTIONARY,
            content: USUAL_CONTENT,
            via: USUAL_VIA,
            session: USUAL_SESSION,
        }
    }

    /// The quotas with these values; None where one of them is outside its bounds.
    pub fn of(
        payload: u32,
        depth: u32,
        dictionary: u32,
        content: u32,
        via: u32,
        session: u64,
    ) -> Option<Quotas>
        ensures good { IsSome result
            ↔ IsGood (limits payload depth dictionary content via session) }
        ensures limits { IfSome result (λ quotas.
            limits_of quotas ≡ limits payload depth dictionary content via session) }
    {
        let good = (4_096..=16_777_216).contains(&payload)
            && (4..=1_024).contains(&depth)
            && dictionary <= payload
            && dictionary <= 1_048_576
            && payload <= content
            && content <= 67_108_864
            && (16..=2_048).contains(&via)
            && 1 <= session
            && session <= 1 << 48;
        if good {
            Some(Quotas {
                payload,
                depth,
                dictionary,
                content,
                via,
                session,
            })
        } else {
            None
        }
    }
}

/// The quotas of both directions of a session.
#[derive(Clone, Copy, Debug, PartialEq, Eq)]
pub struct Two {
    /// Of what the initiator sends and the receiver reads.
    pub forward: Quotas,
    /// Of what the receiver sends and the initiator reads.
    pub back: Quotas,
}

/// What a reader holds of its input at one moment.
#[derive(Clone, Copy, Debug, PartialEq, Eq)]
pub struct Kept {
    /// How many bytes of the input it holds that aren't part of an item yet.
    pub raw: u64,
    /// The content of the document that isn't complete yet.
    pub content: u64,
}
