// The quotas that values set.
ghost use Rattle.std.specs.Prelude.{◌≡◌, IfNone, IfSome, option_map};
ghost use Rattle.clap.specs.declared.parser.matches.ArgMatches.{ArgMatches};
ghost use Rattle.nbfx_values.specs.Limits.{IsGood, Limits};
ghost use Rattle.nbfx_values.specs.QuotasOf.{limits_of};
ghost use Rattle.command_words.specs.Asking.{two_of};
ghost use Rattle.command_words.specs.Values.{text_behind};
ghost use Rattle.command_words.specs.WordAnswers.{found_values, values_of};
ghost use Rattle.command_words.specs.Requests.{AreGood, AreLimits, AreTwo, TwoLimits, content_beside, forward_values, reply_values};

use crate::number::{number_or, small_or};
use crate::option_name::OptionName;
use crate::parsed::given_for;
use clap::ArgMatches;
use nbfx_values::{Quotas, Two};

// The values of the options of one direction's quotas.
#[derive(Clone, Copy)]
struct QuotaValues<'w> {
    payload: Option<&'w str>,
    depth: Option<&'w str>,
    dictionary: Option<&'w str>,
    content: Option<&'w str>,
    session: Option<&'w str>,
}

// Those of what the initiator sends.
fn forward_values<'w>(matches: &ArgMatches<'w>) -> QuotaValues<'w>
    ensures { values_of result ≡ forward_values (found_values matches.now) }
{
    QuotaValues {
        payload: given_for(matches, OptionName::Payload),
        depth: given_for(matches, OptionName::Depth),
        dictionary: given_for(matches, OptionName::Dictionary),
        content: given_for(matches, OptionName::Content),
        session: given_for(matches, OptionName::Session),
    }
}

// Those of what the receiver sends.
fn reply_values<'w>(matches: &ArgMatches<'w>) -> QuotaValues<'w>
    ensures { values_of result ≡ reply_values (found_values matches.now) }
{
    QuotaValues {
        payload: given_for(matches, OptionName::ReplyPayload),
        depth: given_for(matches, OptionName::ReplyDepth),
        dictionary: given_for(matches, OptionName::ReplyDictionary),
        content: given_for(matches, OptionName::ReplyContent),
        session: None,
    }
}

// The content where no value sets it, by whether one sets the payload.
fn content_beside(given: Option<&str>, usual: u32, payload: u32) -> u64
    ensures { result ≡ content_beside (text_behind given.entry) usual payload }
{
    match given {
        None => u64::from(usual),
        Some(_) => u64::from(Quotas::usual().content).max(4 * u64::from(payload)),
    }
}

// The quotas that the values set, and these for others; None where they aren't valid together.
fn set_by(given: QuotaValues<'_>, usual: Quotas) -> Option<Quotas>
    ensures set { IfSome result
        (λ quotas. AreLimits (values_of given.entry) (limits_of usual) (limits_of quotas)) }
    ensures none { IfNone result ((limits : Limits)
        → AreLimits (values_of given.entry) (limits_of usual) limits → ¬ IsGood limits) }
{
    let payload = small_or(given.payload, u64::from(usual.payload))?;
    let depth = small_or(given.depth, u64::from(usual.depth))?;
    let dictionary = small_or(given.dictionary, u64::from(usual.dictionary))?;
    let usual_content = content_beside(given.payload, usual.content, payload);
    let content = small_or(given.content, usual_content)?;
    let session = number_or(given.session, usual.session)?;
    Quotas::of(payload, depth, dictionary, content, usual.via, session)
}

/// The quotas of both directions that the values set: the defaults where the initiator's aren't
/// given, and the initiator's where the receiver's aren't; None where they aren't valid together.
pub fn quotas_of(matches: &ArgMatches<'_>) -> Option<Two>
    ensures set { IfSome result (λ two. AreTwo (found_values matches.now) (two_of two)) }
    ensures none { IfNone result ((limits : TwoLimits) → AreTwo (found_values matches.now) limits
        → ¬ AreGood limits) }
{
    let forward = set_by(forward_values(matches), Quotas::usual())?;
    let back = set_by(reply_values(matches), forward)?;
    Some(Two { forward, back })
}
