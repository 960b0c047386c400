//! Writes the explanation of a run to a file, once its scripts have ended.

ghost use Rattle.std.specs.Prelude.{◌≡◌, IfOk};

use crate::complaint::Complaint;
use crate::part::{Careful, Target, given};
use child_events::Counted;
use course_texts::explain;
use dialogue_sched::Script;
use secret_words::Secrets;
use std::alloc::{AllocError, Global};
use std::io::Write;
use std::rt::Files;

/// A file for the explanation of scripts.
#[derive(Drop)]
pub struct Account<'a, F: Drop> {
    target: Target<'a>,
    file: Careful<F>,
    scripts: Vec<Script>,
}

/// Returns a copy of a script.
fn copied(alloc: Global, script: &Script) -> Result<Script, AllocError>
    ensures { IfOk result (λ s. s ≡ script.now) }
{
    Ok(Script {
        source: script.source.copied(alloc)?,
        settings: script.settings.copied(alloc)?,
    })
}

/// Returns copies of scripts.
fn all_copied(alloc: Global, scripts: &[Script]) -> Result<Vec<Script>, AllocError>
    ensures { IfOk result (λ ss. ss.items ≡ scripts.now) }
{
    let mut made = Vec::new(alloc);
    for script in scripts {
        let Ok(()) = made.push(copied(alloc, script)?) else {
            return Err(AllocError);
        };
    }
    Ok(made)
}

/// Creates the file for the explanation of scripts that are about to run.
pub fn opened_account<'a, R: Files>(
    rt: &R,
    alloc: Global,
    path: &'a str,
    scripts: &[Script],
) -> Result<Account<'a, R::File>, Complaint<'a>> {
    let scripts = all_copied(alloc, scripts)?;
    let target = Target::asked(rt, alloc, path)?;
    match target.create(rt) {
        Ok(file) => Ok(Account {
            target,
            file: Careful::new(file),
            scripts,
        }),
        Err(reason) => Err(Complaint::NotWritten { path, reason }),
    }
}

/// Removes the file of an explanation that is not written.
pub fn remove_account<R: Files>(rt: &R, account: Option<Account<'_, R::File>>) {
    if let Some(account) = account {
        account.target.remove(rt);
    }
}

/// Writes the explanation of scripts over the record of their run, with names in place of secrets. If
/// the file is complete, it gets its name. Otherwise it is removed.
pub fn tell_account<'a, R: Files>(
    rt: &R,
    alloc: Global,
    account: Account<'a, R::File>,
    secrets: &Secrets,
    record: &[u8],
) -> Result<(), Complaint<'a>> {
    let Account {
        target,
        file,
        scripts,
    } = account;
    let path = target.path();
    let mut log = Counted::new(record);
    let mut out = Counted::new(file);
    let told = match explain(alloc, None, secrets, &mut log, scripts, &mut out) {
        Ok(()) => match given(rt, &target, out.device.whole()) {
            Ok(()) => Ok(()),
            Err(reason) => Err(Complaint::NotWritten { path, reason }),
        },
        Err(fault) => Err(Complaint::of_account(fault, path)),
    };
    if told.is_err() {
        target.remove(rt);
    }
    told
}
