//! The parameters of scrypt.

ghost use Rattle.std.specs.Prelude.{◌≡◌, ◌↔◌, ◌+◌, ◌^◌, ◌≤◌, ◌<◌, ◌*◌, IfSome, IsSome};
ghost use Rattle.age_kdf.specs.Params.{Costs, InRange, work_words};

use std::marker::Model;

/// The parameters of scrypt (RFC 7914, section 2): N as its logarithm log_n, the block size r and
/// the parallelization p, in the ranges of `ScryptParams::new`.
#[derive(Clone, Copy, Debug, PartialEq, Eq)]
pub struct ScryptParams {
    log_n: u32,
    r: u32,
    p: u32,
}

impl Model for ScryptParams {
    ghost Value = { Costs };

    ghost view = { λ s. record { log_n = s.log_n; r = s.r; p = s.p } };

    ghost invariant = { λ s. InRange s.log_n s.r s.p };

    ghost inverse = { λ c. record { log_n = c.log_n; r = c.r; p = c.p } };
}

/// The number of rows of the table: N = 2^log_n.
pub(crate) fn row_count(log_n: u32) -> usize
    requires { log_n ≤ 30 }
    ensures { result ≡ 2 ^ log_n }
{
    1usize << log_n
}

impl ScryptParams {
    /// Makes parameters. Returns `None` unless `log_n` is 1 to 30 and below 16 * r, and `r` and `p`
    /// are 1 to 32. These ranges lie within those of the RFC, and no product of parameters
    /// overflows.
    pub fn new(log_n: u32, r: u32, p: u32) -> Option<ScryptParams>
        // Returns parameters exactly if they are in range.
        ensures in_range { IsSome result ↔ InRange log_n r p }
        // They are the parameters passed.
        ensures parts { IfSome result (λ s. s ≡ record { log_n = log_n; r = r; p = p }) }
    {
        let each_in_range = (1..=30).contains(&log_n)
            && (1..=32).contains(&r)
            && (1..=32).contains(&p);
        if each_in_range && log_n < 16 * r {
            Some(ScryptParams { log_n, r, p })
        } else {
            None
        }
    }

    /// The logarithm of N to the base 2.
    pub fn log_n(&self) -> u32
        ensures value { result ≡ self.now.log_n }
        // 1 to 30.
        ensures range { (1 ≤ result) × (result ≤ 30) }
    {
        self.log_n
    }

    /// The block size, in units of 128 bytes.
    pub fn r(&self) -> u32
        ensures value { result ≡ self.now.r }
        // 1 to 32.
        ensures range { (1 ≤ result) × (result ≤ 32) }
    {
        self.r
    }

    /// The parallelization.
    pub fn p(&self) -> u32
        ensures value { result ≡ self.now.p }
        // 1 to 32.
        ensures range { (1 ≤ result) × (result ≤ 32) }
    {
        self.p
    }

    /// The number of words of work space that `scrypt_with` needs: 32 * r * (N + p + 2).
    pub fn work_len(&self) -> usize
        ensures { result ≡ work_words self.now }
    {
        let rows = row_count(self.log_n) + self.p as usize + 2;
        32 * self.r as usize * rows
    }
}
