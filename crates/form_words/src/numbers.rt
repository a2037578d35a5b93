ghost use Rattle.std.specs.Prelude.{◌≡◌, ◌≤◌, IfSome};
ghost use Rattle.clap.specs.Words.{first_value, found_of};
ghost use Rattle.form_words.specs.Options as options;

use clap::ArgMatches;
use form_base::Settings;

/// The settings that the options make, none where a number isn't in its range or they aren't consistent.
#[tactic(auto, unfolding(crate::specs::Options::settings_of))]
pub fn settings_of(matches: &ArgMatches<'_>) -> Option<Settings>
    ensures { result ≡ options.settings_of (first_value (found_of matches.now)) }
{
    let workers = number(matches, "w", 1, 16, 1)?;
    let bucket = number(matches, "bucket", 1, 100_000, 500)?;
    let buffer = number(matches, "buffer", 2, 1_000_000, 20_000)?;
    let fan = number(matches, "fan", 2, 256, 16)?;
    let members = workers + 1;
    let hold = number(
        matches,
        "hold",
        1,
        1_000_000_000,
        members * buffer + 4 * members * bucket,
    )?;
    let max_repeat = number(matches, "max-repeat", 1, 1_000_000, 10_000)?;
    let max_expand = number(matches, "max-expand", 1, 4_294_967_295, 10_000_000)?;
    let max_terms = number(
        matches,
        "max-terms",
        1,
        1_099_511_627_776,
        1_099_511_627_776,
    )?;
    if hold < members * buffer + bucket || fan > buffer {
        return None;
    }
    Some(Settings {
        workers,
        bucket,
        buffer,
        fan,
        hold,
        max_repeat,
        max_expand,
        max_terms,
    })
}

/// The number of the option of this name: `default` where it isn't given, none where it is no number of the range.
#[tactic(auto, unfolding(crate::specs::Options::number_of))]
fn number(matches: &ArgMatches<'_>, name: &str, least: u64, most: u64, default: u64) -> Option<u64>
    requires { default ≤ most }
    ensures most { IfSome result (λ value. value ≤ most) }
    ensures value { result ≡ options.number_of (first_value (found_of matches.now))
        (options.option name.now least most default) }
{
    match matches.get_str(name) {
        Some(text) => decimal(text, least, most),
        None => Some(default),
    }
}

/// The number from `least` to `most` that decimal digits write, none where there is a sign or a leading zero.
fn decimal(text: &str, least: u64, most: u64) -> Option<u64>
    ensures most { IfSome result (λ value. value ≤ most) }
    ensures value { result ≡ options.number_between least most text.now }
{
    let [b'1'..=b'9', ..] = text.as_bytes() else {
        return None;
    };
    let value = text.parse::<u64>().ok()?;
    if value < least || most < value {
        return None;
    }
    Some(value)
}
