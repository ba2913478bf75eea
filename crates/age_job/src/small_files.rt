//! The small files that hold a job's secrets: passphrases, keys, file keys and seeds.

ghost use Rattle.std.specs.Prelude.{◌≡◌, ◌≤◌, ◌<◌, ◌+◌, ◌⊎◌, [], ℕ};
ghost use Rattle.std.specs.Prelude.{List, length, vec_len, IfErr, IfOk};
ghost use Rattle.age_job.specs.Passphrase.{IsNewPassphrase};
ghost use Rattle.age_job.specs.Refusal.{IsFileFault, IsNoChoice, IsPassphraseFault, MakesHeader};
ghost use Rattle.age_job.specs.Refusal.{MayRefuse};
ghost use Rattle.age_job.specs.Secret.{IsChoice, IsFileKeyOf, IsFilesFault, IsNewSecret};
ghost use Rattle.age_job.specs.Secret.{IsReadFrom, IsSecretOf};

use crate::failure::{Detail, Failure};
use crate::fault::Fault;
use crate::file_names::{Name, Role};
use crate::files::{MAX_SMALL, NamedFile, ReadFiles, read_prefix, unidentified};
use crate::inode::{Inode, Kind};
use crate::job::{Command, Job};
use crate::output::refuse_terminal;
use crate::ranges::DEFAULT_SEED;
use crate::secret::{
    SEED_LEN, Secret, begins_with_mark, ends_in_line_end, exactly, without_line_end,
};
use std::alloc::Global;
use std::fs::OpenFile;
use std::io::{IsTerminal, Read, Seek, SeekFrom};
use std::rt::Files;

/// Reads the secret of a command that has only one.
#[tactic(auto, using(crate::proofs::RefusalLemmas::read_secret))]
pub fn read_secret<'a, F: Files + AllocGlobal>(
    rt: &F,
    job: &'a Job,
    read: &mut ReadFiles<'a>,
) -> Result<Secret, Failure<'a>>
    // Returns one or more passphrases if only passphrase files are named, and one or more keys if
    // only key files are named; in both cases not more than there are files.
    ensures secret { IfOk result (IsSecretOf job.now.pass job.now.more_passes.items job.now.key
        job.now.more_keys.items) }
    // The fault is one that the job allows or, even for a job of `inspect`, `KeyChoice`.
    ensures fault { IfErr result (λ failure. MayRefuse job.now failure.fault
        ⊎ ((failure.fault ≡ Fault.KeyChoice) × IsNoChoice job.now.pass job.now.key)) }
{
    let files = secret_files(job)?;
    read_from(rt, read, files)
}

/// Reads the secret and the seed for a new file, which is written to `out` if the job names no OUT.
#[tactic(auto, using(crate::proofs::RefusalLemmas::read_encrypt_secrets))]
pub fn read_encrypt_secrets<'a, F: Files + AllocGlobal, W: IsTerminal>(
    rt: &F,
    job: &'a Job,
    read: &mut ReadFiles<'a>,
    out: &W,
) -> Result<(Secret, [u8; SEED_LEN]), Failure<'a>>
    // The secret is one or more passphrases or keys by its options, as for `read_secret`.
    ensures secret { IfOk result (λ read. IsSecretOf job.now.pass job.now.more_passes.items
        job.now.key job.now.more_keys.items read.0) }
    // No new passphrase is empty, ends in CR or LF, or begins with a byte-order mark.
    ensures new { IfOk result (λ read. IsNewSecret read.0) }
    ensures fault { job.now.command ≡ Command.Encrypt
        → IfErr result (λ failure. MayRefuse job.now failure.fault) }
{
    let files = secret_files(job)?;
    refuse_terminal(job, out)?;
    read_new_from(rt, job, read, files)
}

/// Reads the old secret, the new one, and the seed for a file that is written to `out` if the job
/// names no OUT. The arguments must name the files of both secrets.
#[tactic(auto, using(crate::proofs::RefusalLemmas::read_rewrap_secrets))]
pub fn read_rewrap_secrets<'a, F: Files + AllocGlobal, W: IsTerminal>(
    rt: &F,
    job: &'a Job,
    read: &mut ReadFiles<'a>,
    out: &W,
) -> Result<(Secret, Secret, [u8; SEED_LEN]), Failure<'a>>
    // The old secret is passphrases or keys by its options, as for `read_secret`.
    ensures old { IfOk result (λ read. IsSecretOf job.now.pass job.now.more_passes.items
        job.now.key job.now.more_keys.items read.0) }
    // The new secret is a passphrase or keys by its options, as for `read_secret`.
    ensures other { IfOk result (λ read. IsSecretOf job.now.new_pass [] job.now.new_key
        job.now.more_new_keys.items read.1) }
    // No new passphrase is empty, ends in CR or LF, or begins with a byte-order mark.
    ensures new { IfOk result (λ read. IsNewSecret read.1) }
    ensures fault { job.now.command ≡ Command.Rewrap
        → IfErr result (λ failure. MayRefuse job.now failure.fault) }
{
    let old = secret_files(job)?;
    let new = new_secret_files(job)?;
    refuse_terminal(job, out)?;
    let old = read_from(rt, read, old)?;
    let (new, seed) = read_new_from(rt, job, read, new)?;
    Ok((old, new, seed))
}

/// Reads the file key under which to check the header's MAC.
pub fn read_file_key<'a, F: Files + AllocGlobal>(
    rt: &F,
    job: &'a Job,
    read: &mut ReadFiles<'a>,
) -> Result<Option<[u8; 16]>, Failure<'a>>
    // Returns a file key exactly if `-f` names one and `-r` is absent.
    ensures key { IfOk result (IsFileKeyOf job.now.raw job.now.file_key) }
    ensures fault { job.now.command ≡ Command.Inspect
        → IfErr result (λ failure. MayRefuse job.now failure.fault) }
{
    match &job.file_key {
        Some(name) if !job.raw => {
            let named = NamedFile {
                role: Role::FileKey,
                name: name.as_str(),
            };
            Ok(Some(read_just(rt, read, named, Fault::FileKeyLength)?))
        }
        _ => Ok(None),
    }
}

/// The files that options name for a secret.
#[derive(Clone, Copy, Drop)]
enum SecretFiles<'a> {
    /// The file of the first passphrase, and the names of the files after it.
    Passphrase(NamedFile<'a>, &'a [String]),
    /// The same for keys.
    Keys(NamedFile<'a>, &'a [String]),
}

/// The files of the job's passphrase or keys.
fn secret_files<'a>(job: &'a Job) -> Result<SecretFiles<'a>, Fault<'a>>
    ensures files { IfOk result (IsChoice job.now.pass job.now.more_passes.items job.now.key
        job.now.more_keys.items) }
    ensures fault { IfErr result
        (λ fault. (fault ≡ Fault.KeyChoice) × IsNoChoice job.now.pass job.now.key) }
{
    let passphrases = (Role::Passphrase, &job.pass, job.more_passes.as_slice());
    let keys = (Role::Key, &job.key, job.more_keys.as_slice());
    choice_of(passphrases, keys, Fault::KeyChoice)
}

/// The files of the job's new passphrase or keys.
fn new_secret_files<'a>(job: &'a Job) -> Result<SecretFiles<'a>, Fault<'a>>
    ensures files { IfOk result
        (IsChoice job.now.new_pass [] job.now.new_key job.now.more_new_keys.items) }
    ensures fault { job.now.command ≡ Command.Rewrap → IfErr result (MayRefuse job.now) }
{
    let passphrases = (Role::NewPassphrase, &job.new_pass, &[][..]);
    let keys = (Role::NewKey, &job.new_key, job.more_new_keys.as_slice());
    choice_of(passphrases, keys, Fault::NewKeyChoice)
}

/// A role, the first file named for it, and the files after it.
type Named<'a> = (Role, &'a Option<String>, &'a [String]);

/// The files that options name for passphrases or for keys. The options must name files of exactly
/// one kind, because the format forbids another stanza beside that of a passphrase.
fn choice_of<'a>(
    passphrases: Named<'a>,
    keys: Named<'a>,
    fault: Fault<'a>,
) -> Result<SecretFiles<'a>, Fault<'a>>
    ensures files { IfOk result (IsChoice passphrases.entry.1.now passphrases.entry.2.now
        keys.entry.1.now keys.entry.2.now) }
    ensures fault { IfErr result (λ refused. (refused ≡ fault.entry)
        × IsNoChoice passphrases.entry.1.now keys.entry.1.now) }
{
    match (passphrases.1, keys.1) {
        (Some(name), None) => {
            let (role, name) = (passphrases.0, name.as_str());
            Ok(SecretFiles::Passphrase(NamedFile { role, name }, passphrases.2))
        }
        (None, Some(name)) => {
            let (role, name) = (keys.0, name.as_str());
            Ok(SecretFiles::Keys(NamedFile { role, name }, keys.2))
        }
        _ => Err(fault),
    }
}

/// Reads the passphrases or the keys in these files, to open a file.
fn read_from<'a, F: Files + AllocGlobal>(
    rt: &F,
    read: &mut ReadFiles<'a>,
    files: SecretFiles<'a>,
) -> Result<Secret, Failure<'a>>
    ensures secret { IfOk result (λ secret. IsReadFrom files.entry secret) }
    ensures fault { IfErr result (λ failure. IsFilesFault
        (λ fault. fault ≡ Fault.PassphraseLength) files.entry failure.fault) }
{
    match files {
        SecretFiles::Passphrase(first, more) => {
            let passphrase = read_passphrase(rt, read, first)?;
            let others = read_passphrases(rt, read, first.role, more)?;
            Ok(Secret::Passphrase(passphrase, others))
        }
        SecretFiles::Keys(first, more) => Ok(Secret::Keys(read_keys(rt, read, first, more)?)),
    }
}

/// Reads the first passphrase or all keys in these files, to make a file, and then the job's seed.
fn read_new_from<'a, F: Files + AllocGlobal>(
    rt: &F,
    job: &'a Job,
    read: &mut ReadFiles<'a>,
    files: SecretFiles<'a>,
) -> Result<(Secret, [u8; SEED_LEN]), Failure<'a>>
    ensures secret { IfOk result (λ read. IsReadFrom files.entry read.0) }
    ensures new { IfOk result (λ read. IsNewSecret read.0) }
    ensures fault { IfErr result
        (λ failure. IsFilesFault IsPassphraseFault files.entry failure.fault
        ⊎ (MakesHeader job.now → MayRefuse job.now failure.fault)) }
{
    let secret = match files {
        SecretFiles::Passphrase(named, _) => {
            Secret::Passphrase(read_new_passphrase(rt, read, named)?, Vec::new(rt.alloc()))
        }
        SecretFiles::Keys(first, more) => Secret::Keys(read_keys(rt, read, first, more)?),
    };
    Ok((secret, read_seed(rt, job, read)?))
}

/// Reads the passphrase of a new file. Refuses an empty passphrase, which a failed command may
/// leave, because anyone could open the new file. Refuses one that ends in CR or LF, or begins with
/// a byte-order mark, which editors write: whoever types the passphrase could not open the file.
fn read_new_passphrase<'a, F: Files + AllocGlobal>(
    rt: &F,
    read: &mut ReadFiles<'a>,
    named: NamedFile<'a>,
) -> Result<Vec<u8>, Failure<'a>>
    // The passphrase is not empty, does not end in CR or LF, and does not begin with a byte-order
    // mark.
    ensures passphrase { IfOk result (λ passphrase. IsNewPassphrase passphrase.items) }
    ensures fault { IfErr result (λ failure. IsFileFault named.entry.name.now failure.fault
        ⊎ IsPassphraseFault failure.fault) }
{
    let NamedFile { role, name } = named;
    let passphrase = read_passphrase(rt, read, named)?;
    let bytes = passphrase.as_slice();
    if bytes.is_empty() {
        return Err(Failure::with(Fault::NoPassphrase, Detail::File(role, Name(name))));
    }
    if begins_with_mark(bytes) || ends_in_line_end(bytes) {
        return Err(Failure::with(Fault::UntypedPassphrase, Detail::File(role, Name(name))));
    }
    Ok(passphrase)
}

/// Reads the bytes of this file, without one LF at the end.
fn read_passphrase<'a, F: Files + AllocGlobal>(
    rt: &F,
    read: &mut ReadFiles<'a>,
    named: NamedFile<'a>,
) -> Result<Vec<u8>, Failure<'a>>
    ensures { IfErr result (λ failure. IsFileFault named.entry.name.now failure.fault
        ⊎ (failure.fault ≡ Fault.PassphraseLength)) }
{
    let NamedFile { role, name } = named;
    let file = read.open_small(rt, named)?;
    let bytes = read_prefix(rt.alloc(), named, file, MAX_SMALL + 1)?;
    let len = bytes.len();
    if len > MAX_SMALL {
        return Err(Failure::with(Fault::PassphraseLength, Detail::Size(role, Name(name), len)));
    }
    Ok(without_line_end(bytes))
}

/// Reads the passphrases in these files, in order.
fn read_passphrases<'a, F: Files + AllocGlobal>(
    rt: &F,
    read: &mut ReadFiles<'a>,
    role: Role,
    names: &'a [String],
) -> Result<Vec<Vec<u8>>, Failure<'a>>
    ensures number { IfOk result (λ passphrases. vec_len passphrases ≤ length names.now) }
    ensures fault { IfErr result (λ failure. (0 < length names.now) × ((name : List ℕ)
        × (IsFileFault name failure.fault ⊎ (failure.fault ≡ Fault.PassphraseLength)))) }
{
    let mut passphrases = Vec::new(rt.alloc());
    for name in names {
        let name = name.as_str();
        passphrases.push(read_passphrase(rt, read, NamedFile { role, name })?)?;
    }
    Ok(passphrases)
}

/// Reads the keys in these files, in order. Drops a key that equals one before it.
fn read_keys<'a, F: Files + AllocGlobal>(
    rt: &F,
    read: &mut ReadFiles<'a>,
    first: NamedFile<'a>,
    more: &'a [String],
) -> Result<Vec<[u8; 32]>, Failure<'a>>
    ensures keys { IfOk result
        (λ keys. (0 < vec_len keys) × (vec_len keys ≤ 1 + length more.now)) }
    ensures fault { IfErr result (λ failure. (IsFileFault first.entry.name.now failure.fault
        ⊎ (failure.fault ≡ Fault.KeyLength))
        ⊎ ((0 < length more.now) × ((name : List ℕ) × (IsFileFault name failure.fault
        ⊎ (failure.fault ≡ Fault.KeyLength))))) }
{
    let mut keys = vec![in rt.alloc(); read_just(rt, read, first, Fault::KeyLength)?]?;
    let role = first.role;
    for name in more {
        let name = name.as_str();
        let key = read_just(rt, read, NamedFile { role, name }, Fault::KeyLength)?;
        if !keys.contains(&key) {
            keys.push(key)?;
        }
    }
    Ok(keys)
}

/// Reads the first 48 bytes of the job's seed file. The default one must be a device, because an
/// ordinary file in its place would give every file the same keys.
#[tactic(auto, using(crate::proofs::RefusalLemmas::of_seed))]
fn read_seed<'a, F: Files + AllocGlobal>(
    rt: &F,
    job: &'a Job,
    read: &mut ReadFiles<'a>,
) -> Result<[u8; SEED_LEN], Failure<'a>>
    ensures { MakesHeader job.now → IfErr result (λ failure. MayRefuse job.now failure.fault) }
{
    let name = job.seed.as_str();
    let role = Role::Seed;
    let named = NamedFile { role, name };
    let mut file = read.open_small(rt, named)?;
    refuse_ordinary(&mut file, name)?;
    read_exactly(rt.alloc(), named, file, SEED_LEN, Fault::SeedLength)
}

/// Refuses the default seed file if it is not a character device. If the system does not tell,
/// accepts a file whose end is at offset 0, like that of the device.
fn refuse_ordinary<'a, F: OpenFile + Seek>(file: &mut F, name: &'a str) -> Result<(), Failure<'a>>
    ensures { IfErr result (λ failure. IsFileFault name.now failure.fault) }
{
    if name != DEFAULT_SEED {
        return Ok(());
    }
    match Inode::of_open(file) {
        Ok(inode) if inode.kind == Kind::CharDevice => Ok(()),
        Ok(_) => Err(Failure::with(
            Fault::CannotOpen(Name(name)),
            Detail::NoDevice(Role::Seed, Name(name)),
        )),
        Err(reason) => match file.seek(SeekFrom::End(0)) {
            Ok(0) => Ok(()),
            _ => Err(unidentified(name, reason)),
        },
    }
}

/// Reads a small file, which must have exactly N bytes. Returns the fault `length` if it does not.
fn read_just<'a, F: Files + AllocGlobal, const N: usize>(
    rt: &F,
    read: &mut ReadFiles<'a>,
    named: NamedFile<'a>,
    length: Fault<'a>,
) -> Result<[u8; N], Failure<'a>>
    ensures { IfErr result (λ failure. IsFileFault named.entry.name.now failure.fault
        ⊎ (failure.fault ≡ length.entry)) }
{
    let file = read.open_small(rt, named)?;
    read_exactly(rt.alloc(), named, file, MAX_SMALL + 1, length)
}

/// Reads at most `most` bytes of this file. Returns the fault `length` unless there are N of them.
fn read_exactly<'a, R: Read + Drop, const N: usize>(
    alloc: Global,
    named: NamedFile<'a>,
    file: R,
    most: usize,
    length: Fault<'a>,
) -> Result<[u8; N], Failure<'a>>
    ensures { IfErr result (λ failure. IsFileFault named.entry.name.now failure.fault
        ⊎ (failure.fault ≡ length.entry)) }
{
    let NamedFile { role, name } = named;
    let bytes = read_prefix(alloc, named, file, most)?;
    match exactly(bytes.as_slice()) {
        Some(array) => Ok(array),
        None => Err(Failure::with(length, Detail::Size(role, Name(name), bytes.len()))),
    }
}
