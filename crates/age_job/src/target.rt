//! How OUT is written: in place, or with `--atomic` by a new file that takes its place.

ghost use Rattle.std.specs.Prelude.{◌≡◌, ◌≢◌, IfErr, IsSome, false, true};
ghost use Rattle.age_job.specs.Refusal.{IsNamed, IsReplacedFault, MayEnd, MayRefuse};

use crate::failure::{Failure, Operation};
use crate::fault::Fault;
use crate::file_names::Name;
use crate::files::{ReadFiles, unidentified};
use crate::inode::{Inode, Kind};
use crate::job::Job;
use crate::output::{
    Output, PLAINTEXT_MODE, cannot_create, failed_write, new_file, new_mode, open_in_place,
    refuse_output,
};
use crate::system_file::SystemFile;
use std::fs::{Metadata, OpenFile, OpenOptions, Permissions};
use std::io::ErrorKind;
use std::os::unix::fs::{MetadataExt, PermissionsExt};
use std::rt::Files;
use std::{fs, io};

/// The end of the new file's name.
const NEW: &str = ".agep-new";

/// The permissions that a new file takes over from the one that it replaces.
const PERMISSIONS: u32 = 0o777;

/// The permissions of the owner and of others, without those of the group.
const WITHOUT_GROUP: u32 = 0o707;

/// How a job writes OUT.
#[derive(Drop)]
pub enum Target {
    InPlace,
    /// By a new file; or why this fails: the system does not resolve OUT, or memory was refused.
    Replaced(io::Result<Replacement>),
}

/// A file to replace, and the new file beside it.
#[derive(Drop)]
pub struct Replacement {
    /// The name of OUT, or of the file to which it leads if it is a symbolic link.
    old: String,
    new: String,
}

impl Target {
    /// Says how this job writes OUT. With `--atomic -n`, removes `OUT.agep-new` if that is OUT too.
    pub fn of<F: Files + AllocGlobal>(rt: &F, job: &Job) -> Target
        // Without `--atomic` OUT itself is written.
        ensures in_place { job.now.atomic ≡ false → result ≡ Target.InPlace }
        // With `--atomic` a new file replaces OUT.
        ensures replaced { job.now.atomic ≡ true → IsSome job.now.output
            → result ≢ Target.InPlace }
    {
        match &job.output {
            Some(name) if job.atomic => {
                let replacement = Replacement::of(rt, name.as_str());
                if job.no_clobber
                    && let Ok(replacement) = &replacement
                {
                    replacement.remove_second_name(rt);
                }
                Target::Replaced(replacement)
            }
            _ => Target::InPlace,
        }
    }

    /// Opens OUT, the file of this name, or the new file that takes its place. Creates OUT if it
    /// does not exist; the new file must not exist, unless a killed run left it. Refuses an OUT
    /// that the job reads, but lets a command other than `salvage` replace its IN.
    pub fn create<'a, F: Files>(
        &'a self,
        rt: &F,
        job: &'a Job,
        read: &ReadFiles<'a>,
        name: &'a str,
    ) -> Result<Output<F::File>, Failure<'a>>
    where
        F::File: SystemFile,
        // If the target was made for this job, and `name` is its OUT, the fault is one it allows.
        ensures { IsNamed job.now.output name.now
            → (job.now.atomic ≡ false → self.now ≡ Target.InPlace)
            → IfErr result (λ failure. MayRefuse job.now failure.fault) }
    {
        let Target::Replaced(found) = self else {
            return open_in_place(rt, job, read, name);
        };
        let reason = match found {
            Ok(replacement) => return replacement.create(rt, job, read, name),
            Err(reason) => *reason,
        };
        // A link such as `/dev/stdout` may lead to a pipe, which has no name.
        if matches!(Inode::at(rt, name), Ok(inode) if inode.kind != Kind::Regular) {
            return Err(Fault::OutputIsSpecial(Name(name)).into());
        }
        match reason.kind() {
            ErrorKind::OutOfMemory => Err(Fault::OutOfMemory.into()),
            ErrorKind::NotFound
            | ErrorKind::NotADirectory
            | ErrorKind::PermissionDenied
            | ErrorKind::InvalidFilename
            | ErrorKind::FilesystemLoop => Err(cannot_create(name, name, reason)),
            _ => Err(unidentified(name, reason)),
        }
    }

    /// Ends the output. If it is kept, syncs what was written, gives a new file the name of OUT,
    /// and syncs the folder. If it is not kept, or a step fails before OUT is replaced, removes the
    /// new file before its lock ends. The new file stays if the system refuses to remove it.
    pub fn finish<'a, F: Files>(
        &'a self,
        rt: &F,
        job: &'a Job,
        output: Output<F::File>,
        name: &'a str,
        is_kept: bool,
    ) -> Result<(), Failure<'a>>
        ensures { IfErr result (λ failure. MayEnd job.now failure.fault) }
    {
        let mut output = output;
        if !is_kept {
            self.discard(rt, &output);
            return Ok(());
        }
        let replaced = match output.finish(name) {
            Ok(()) => self.replace(rt, job, &output.file, name),
            Err(failure) => Err(failure),
        };
        match replaced {
            Ok(Some(folder)) => folder.sync(),
            Ok(None) => Ok(()),
            Err(failure) => {
                self.discard(rt, &output);
                Err(failure)
            }
        }
    }

    /// Gives a new file the name of OUT. Returns its folder, if there is a new file and the folder
    /// may be read. With `--no-clobber` makes a hard link, because a rename would replace an OUT
    /// that was created meanwhile; if the link fails and there is no OUT, renames. Once OUT is the
    /// new file, it is not an error if a name cannot be removed or looked up.
    fn replace<'a, F: Files>(
        &'a self,
        rt: &F,
        job: &'a Job,
        file: &F::File,
        name: &'a str,
    ) -> Result<Option<Folder<'a, F::File>>, Failure<'a>>
        ensures { IfErr result (λ failure. MayEnd job.now failure.fault) }
    {
        let Target::Replaced(Ok(replacement)) = self else {
            return Ok(None);
        };
        let (old, new) = (replacement.old.as_str(), replacement.new.as_str());
        let folder = Folder::of(rt, old)?;
        if let Err(reason) = Inode::check_name(rt, file, new) {
            return Err(failed_write(Operation::Replacing, name, reason));
        }
        let is_linked = job.no_clobber && fs::hard_link(rt, new, old).is_ok();
        if is_linked {
            let _ = replacement.remove(rt, file);
        } else {
            refuse_output(rt, job)?;
            if let Err(reason) = fs::rename(rt, new, old) {
                return Err(failed_write(Operation::Replacing, name, reason));
            }
        }
        // A file that took the new file's name right before the rename or the link is now OUT.
        match Inode::check_name(rt, file, old) {
            Err(reason) if reason.kind() == ErrorKind::NotFound => {
                Err(failed_write(Operation::Replacing, name, reason))
            }
            _ => Ok(folder),
        }
    }

    fn discard<F: Files>(&self, rt: &F, output: &Output<F::File>) {
        if let Target::Replaced(Ok(replacement)) = self {
            let _ = replacement.remove(rt, &output.file);
        }
    }
}

/// The folder of a file that is replaced.
#[derive(Drop)]
struct Folder<'a, F> {
    name: &'a str,
    file: F,
}

impl<'a, F: OpenFile> Folder<'a, F> {
    /// Opens the folder of this file. Returns `None` if the system does not let the folder be read.
    fn of<R: Files<File = F>>(rt: &R, path: &'a str) -> Result<Option<Folder<'a, F>>, Failure<'a>>
        ensures { IfErr result (λ failure. failure.fault ≡ Fault.Write) }
    {
        let name = match path.rsplit_once('/') {
            None => ".",
            Some(("", _)) => "/",
            Some((name, _)) => name,
        };
        match fs::open(rt, name) {
            Ok(file) => Ok(Some(Folder { name, file })),
            Err(reason) if reason.kind() == ErrorKind::PermissionDenied => Ok(None),
            Err(reason) => Err(failed_write(Operation::Syncing, name, reason)),
        }
    }

    /// Syncs the folder, so that the name of a file in it survives a power cut. Some file systems
    /// refuse this, which is not an error.
    fn sync(&self) -> Result<(), Failure<'a>>
        ensures { IfErr result (λ failure. failure.fault ≡ Fault.Write) }
    {
        match self.file.sync_all() {
            Err(reason) if reason.kind() != ErrorKind::InvalidInput => {
                Err(failed_write(Operation::SyncingReplaced, self.name, reason))
            }
            _ => Ok(()),
        }
    }
}

impl Replacement {
    fn of<F: Files + AllocGlobal>(rt: &F, name: &str) -> io::Result<Replacement> {
        let old = followed(rt, name)?;
        let mut new = old.clone()?;
        new.push_str(NEW)?;
        Ok(Replacement { old, new })
    }

    fn create<'a, F: Files>(
        &'a self,
        rt: &F,
        job: &'a Job,
        read: &ReadFiles<'a>,
        name: &'a str,
    ) -> Result<Output<F::File>, Failure<'a>>
    where
        F::File: SystemFile,
        ensures { IfErr result (λ failure. IsReplacedFault name.now failure.fault) }
    {
        let found = self.found(rt, job, read, name)?;
        let mode = match &found {
            Some(_) => PLAINTEXT_MODE,
            None => new_mode(job.command),
        };
        let new = self.new.as_str();
        let file = self.open(rt, read, mode, name)?;
        let prepared = match (file.lock_alone(), Inode::check_name(rt, &file, new)) {
            (Ok(false), _) => return Err(Fault::OutputIsBusy(Name(name)).into()),
            // Another run may have removed the file before the lock, taking it for a killed run's.
            (_, Err(reason)) if reason.kind() == ErrorKind::NotFound => {
                Err(Fault::OutputIsBusy(Name(name)).into())
            }
            (_, Err(reason)) => Err(cannot_create(name, new, reason)),
            (_, Ok(())) => match keep_owner(&file, &found) {
                Ok(()) => Ok(()),
                Err(reason) => Err(cannot_create(name, new, reason)),
            },
        };
        match prepared {
            Ok(()) => Ok(Output::over(file, true)),
            Err(failure) => {
                let _ = self.remove(rt, &file);
                Err(failure)
            }
        }
    }

    /// Creates the new file, which must not exist, unless a killed run left it.
    fn open<'a, F: Files>(
        &'a self,
        rt: &F,
        read: &ReadFiles<'a>,
        mode: u32,
        name: &'a str,
    ) -> Result<F::File, Failure<'a>>
    where
        F::File: SystemFile,
        ensures { IfErr result (λ failure. IsReplacedFault name.now failure.fault) }
    {
        let (new, options) = (self.new.as_str(), new_file(mode));
        let mut opened = options.open(rt, new);
        if let Err(reason) = &opened
            && reason.kind() == ErrorKind::AlreadyExists
        {
            self.remove_left(rt, read, name)?;
            opened = options.open(rt, new);
        }
        match opened {
            Ok(file) => Ok(file),
            Err(reason) if reason.kind() == ErrorKind::AlreadyExists => {
                Err(Fault::OutputIsBusy(Name(name)).into())
            }
            Err(reason) => Err(cannot_create(name, new, reason)),
        }
    }

    /// Removes the new file that a killed run left. This must be a regular file that has no other
    /// name, that the job does not read, and that can be locked, because a run has locked the file
    /// that it writes. If the new file is OUT itself, only its second name is removed.
    fn remove_left<'a, F: Files>(
        &'a self,
        rt: &F,
        read: &ReadFiles<'a>,
        name: &'a str,
    ) -> Result<(), Fault<'a>>
    where
        F::File: SystemFile,
        ensures { IfErr result (IsReplacedFault name.now) }
    {
        let new = self.new.as_str();
        let stays = Err(Fault::NewFileExists(Name(new)));
        match fs::symlink_metadata(rt, new) {
            Ok(found)
                if found.is_file()
                    && found.nlink() == 1
                    && read.refuse(&Inode::of(&found), name).is_ok() => {}
            Err(reason) if reason.kind() == ErrorKind::NotFound => return Ok(()),
            _ if self.remove_second_name(rt) => return Ok(()),
            _ => return stays,
        }
        let file = match OpenOptions::new().write(true).open(rt, new) {
            Ok(file) => file,
            Err(reason) if reason.kind() == ErrorKind::NotFound => return Ok(()),
            Err(_) => return stays,
        };
        match file.lock_alone() {
            Ok(true) => match self.remove(rt, &file) {
                Err(reason) if reason.kind() != ErrorKind::NotFound => stays,
                _ => Ok(()),
            },
            Ok(false) => Err(Fault::OutputIsBusy(Name(name))),
            Err(_) => stays,
        }
    }

    /// Removes the new file's name if it is a second name of OUT, which a run with `--no-clobber`
    /// leaves if it is killed. Returns whether a name was removed.
    fn remove_second_name<F: Files>(&self, rt: &F) -> bool {
        let (old, new) = (self.old.as_str(), self.new.as_str());
        match (fs::symlink_metadata(rt, old), fs::symlink_metadata(rt, new)) {
            (Ok(old), Ok(found)) if Inode::of(&old).is(&Inode::of(&found)) => {
                fs::remove_file(rt, new).is_ok()
            }
            _ => false,
        }
    }

    /// Removes the new file, if this open file still has its name.
    fn remove<F: Files>(&self, rt: &F, file: &F::File) -> io::Result<()> {
        let new = self.new.as_str();
        Inode::check_name(rt, file, new)?;
        fs::remove_file(rt, new)
    }

    /// The metadata of the file to replace, if there is one. It must be a regular file that may
    /// be written, as without `--atomic`, and not one that the job reads and must keep. Nobody may
    /// have locked it: the library for Python locks the file that it writes.
    fn found<'a, F: Files>(
        &self,
        rt: &F,
        job: &Job,
        read: &ReadFiles<'a>,
        name: &'a str,
    ) -> Result<Option<Metadata>, Failure<'a>>
    where
        F::File: SystemFile,
        ensures { IfErr result (λ failure. IsReplacedFault name.now failure.fault) }
    {
        let found = match fs::metadata(rt, self.old.as_str()) {
            Ok(found) => found,
            Err(reason) if reason.kind() == ErrorKind::NotFound => return Ok(None),
            Err(reason) => return Err(unidentified(name, reason)),
        };
        let inode = Inode::of(&found);
        if inode.kind != Kind::Regular {
            return Err(Fault::OutputIsSpecial(Name(name)).into());
        }
        read.refuse_replaced(job.command, &inode, name)?;
        match OpenOptions::new().write(true).open(rt, self.old.as_str()) {
            Ok(file) if matches!(file.lock_alone(), Ok(false)) => {
                Err(Fault::OutputIsBusy(Name(name)).into())
            }
            Ok(_) => Ok(Some(found)),
            Err(reason) => Err(cannot_create(name, name, reason)),
        }
    }
}

/// Gives the new file the permissions of the file that it replaces and, if the system allows it,
/// its owner and group. If the group cannot be set, the new file's group gets no permission.
fn keep_owner<F: OpenFile + SystemFile>(file: &F, found: &Option<Metadata>) -> io::Result<()> {
    let Some(found) = found else {
        return Ok(());
    };
    let (owner, group) = (Some(found.uid()), Some(found.gid()));
    let is_kept = file.set_owner(owner, group).is_ok() || file.set_owner(None, group).is_ok();
    let kept = if is_kept { PERMISSIONS } else { WITHOUT_GROUP };
    file.set_permissions(Permissions::from_mode(found.mode() & kept))
}

/// The name of the file to which a symbolic link leads; any other name stays as it is. An empty
/// name is an error, because no file has it.
fn followed<F: Files + AllocGlobal>(rt: &F, name: &str) -> io::Result<String> {
    match fs::symlink_metadata(rt, name) {
        Ok(found) if found.is_symlink() => Ok(rt.canonicalize(rt.alloc(), name)?.into_string()),
        Err(reason) if name.is_empty() || reason.kind() != ErrorKind::NotFound => Err(reason),
        _ => Ok(String::from_str(rt.alloc(), name)?),
    }
}
