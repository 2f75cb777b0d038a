//! What serving begins and ends with: the vault in its two files, and the address.

use command_line::Serving;
use group_commit::Vault;
use std::fs::File;
use std::net::{Net, TcpListener, TcpStream};
use std::rt::Files;
use vaultd_files::{
    Action, Cause, Failure, Subject, Survey, Teller, WatchedDevice, open_pair, print_line,
    take_survey,
};

/// The number of the vault's life. The program opens one vault, once.
const LIFE: u64 = 1;

/// Opens the vault in the two files. Also gives a survey of it, if the program is asked to say more.
pub fn open_vault<'a, 'p, R: Files<File = File> + Eprint + AllocGlobal>(
    rt: &R,
    teller: &'a Teller<'p, R>,
    serving: &Serving<'p>,
) -> Result<(Vault<WatchedDevice<'a, 'p, R>>, Option<Survey>), Failure> {
    let pair = open_pair(rt, teller, serving.first, serving.second)?;
    let (mut first, mut second) = pair.into_devices();
    let survey = take_survey(rt.alloc(), teller, &mut first, &mut second);
    match Vault::open(rt.alloc(), first, second, LIFE) {
        Ok(vault) => Ok((vault, survey)),
        Err(refused) => {
            let why = refused.why;
            drop(refused);
            Err(Failure::from(why))
        }
    }
}

/// Closes the files of the vault. What isn't durable is lost.
pub fn close_vault<R: Eprint>(vault: Vault<WatchedDevice<'_, '_, R>>) {
    // Dropping the vault itself would be proved anew here.
    let (first, second) = vault.into_devices();
    drop(first);
    drop(second);
}

/// Binds the address, and says so on standard output.
pub fn listen<'p, R: Print + Eprint + Net<Listener = TcpListener, Stream = TcpStream>>(
    rt: &R,
    teller: &Teller<'p, R>,
    serving: &Serving<'p>,
) -> Result<TcpListener, Failure> {
    let listener = TcpListener::bind(rt, serving.address).map_err(|error| {
        let address = Subject::Address(serving.address);
        teller.note(address, Action::Bound, Cause::System(error));
        Failure::Bind
    })?;
    print_line(rt, teller, "listening")?;
    Ok(listener)
}

/// Says on standard error what is served, and where.
pub fn introduce<R: Eprint>(
    rt: &R,
    serving: &Serving<'_>,
    listener: &TcpListener,
    survey: Option<Survey>,
) {
    let (Some(survey), Ok(address)) = (survey, listener.local_addr()) else {
        return;
    };
    let (first, second) = (Subject::File(serving.first), Subject::File(serving.second));
    let _ = eprintln!(rt; "listening on {address}, over {first} and {second}: {survey}");
}
