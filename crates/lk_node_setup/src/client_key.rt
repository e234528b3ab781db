//! `locks client-key`: prints the key of a client, for the operator of the nodes.

ghost use Rattle.std.specs.Prelude.{◌≡◌, ◌≤◌, OnOk};
ghost use Rattle.lk_node_setup.specs.ClientKeys.{PrintsOf};

use crate::network::keys_of;
use crate::text_files::TextFiles;
use lk_program_fault::ProgramFault;
use lk_types::ClientNo;
use std::alloc::Global;
use std::io::Write;

// Prints the key file of a client, made of the masters in a file.
fn print_keys<T: TextFiles, W: Write, E: Write>(
    files: &T,
    alloc: Global,
    master: &str,
    client: ClientNo,
    out: &mut W,
    err: &mut E,
) -> Result<(), ProgramFault>
    ensures { OnOk result (PrintsOf (T.is_text files.now) master.now client (W.contents out.old) (W.contents out.new)) }
{
    let masters = keys_of(files, alloc, master, err)?;
    let keys = masters.of_client(client.get());
    match keys.write(out) {
        Ok(()) => Ok(()),
        Err(_) => Err(ProgramFault::Write),
    }
}

/// Prints the key file of a client, derived from the masters in a file. Returns status 0, or 1 after an error message.
pub fn client_key<T: TextFiles, W: Write, E: Write>(
    files: &T,
    alloc: Global,
    master: &str,
    client: ClientNo,
    out: &mut W,
    err: &mut E,
) -> u8
    ensures status { result ≤ 1 }
    // Status 0 only where the file is a key file of masters, and the keys that these make for the client are printed.
    ensures printed { result ≡ 0
        → PrintsOf (T.is_text files.now) master.now client (W.contents out.old) (W.contents out.new) }
{
    match print_keys(files, alloc, master, client, out, err) {
        Ok(()) => 0,
        Err(fault) => fault.write_to(err),
    }
}
