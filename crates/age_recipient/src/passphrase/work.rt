//! The work factor of a passphrase stanza: the base-2 logarithm of scrypt's N, in decimal.

ghost use Rattle.std.specs.Prelude.{◌≡◌, ◌<◌, ◌≤◌, true, IfSome, IfNone};
ghost use Rattle.std.specs.List.{list_all};
ghost use Rattle.age_recipient.specs.PassphraseStanza.{is_digit, is_work_factor, number_from};
ghost use Rattle.age_recipient.specs.PassphraseHolders.{most_work};

/// The maximum work factor.
pub(super) const MAX_WORK_FACTOR: u8 = 30;

/// Whether this is a digit 1 to 9, then any digits.
pub(crate) fn is_work_factor(text: &[u8]) -> bool
    ensures { result ≡ is_work_factor text.now }
{
    let Some((first, digits)) = text.split_first() else {
        return false;
    };
    *first >= b'1' && *first <= b'9' && are_digits(digits)
}

fn are_digits(text: &[u8]) -> bool
    ensures { result ≡ list_all is_digit text.now }
{
    text.iter().all(|c| *c >= b'0' && *c <= b'9')
}

/// The value of these digits, if it is at most `max`. There may be any number of digits; since
/// three or more exceed every maximum, at most two are evaluated.
#[tactic(auto, using(crate::proofs::StanzaLemmas::long_number))]
pub(crate) fn work_at_most(text: &[u8], max: u8) -> Option<u8>
    requires digits { is_work_factor text.now ≡ true }
    requires small { max ≤ most_work }
    ensures some { IfSome result
        (λ work. (work ≡ number_from 0 text.now) × (1 ≤ work) × (work ≤ max)) }
    ensures none { IfNone result (max < number_from 0 text.now) }
{
    let work = match text {
        [ones] => *ones - b'0',
        [tens, ones] => (*tens - b'0') * 10 + (*ones - b'0'),
        _ => return None,
    };
    if work > max {
        return None;
    }
    Some(work)
}
