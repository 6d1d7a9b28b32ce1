// Messages in memory.

ghost use Rattle.std.specs.Prelude.{◌≡◌, ◌+◌, ◌<◌, ◌≤◌, true, false, length};
ghost use Rattle.lu_spec.specs.Splice.{spliced};
ghost use Rattle.bm_code.specs.Calls.{is_running, with_content};
ghost use Rattle.bm_cpu.specs.State.{with_process};
ghost use Rattle.bm_cpu.specs.Words.{word_bytes};
ghost use Rattle.cg_server.specs.Messages.{has_messages, message_bytes, no_message, with_bytes};

use bm_cpu::machine::Machine;
use bm_mem::Bytes;
use lu_base::Message;
use lu_base::limits::MESSAGE_BYTES;

/// The bytes of the message in which all is 0.
pub(crate) const NO_MESSAGE: [u8; MESSAGE_BYTES] = [0; MESSAGE_BYTES];

/// Puts an int in place of four bytes.
fn put_int(bytes: &mut [u8], at: usize, value: &i32)
    requires { at + 4 ≤ length bytes.old }
    ensures { bytes.new ≡ spliced bytes.old at (word_bytes value.now) }
{
    bytes[at..at + 4].copy_from_slice(&value.to_le_bytes());
}

/// The arguments of a message, of which there are six.
fn arguments(message: &Message) -> &[i32]
    ensures list { result.now ≡ message.now.arg }
    ensures count { length result.now ≡ 6 }
{
    &message.arg
}

/// The bytes of a message.
pub(crate) fn message_bytes(message: &Message) -> [u8; MESSAGE_BYTES]
    ensures { result ≡ message_bytes message.now }
{
    let arg = arguments(message);
    let mut bytes = NO_MESSAGE;
    put_int(&mut bytes, 0, &message.source);
    put_int(&mut bytes, 4, &message.kind);
    put_int(&mut bytes, 8, &arg[0]);
    put_int(&mut bytes, 12, &arg[1]);
    put_int(&mut bytes, 16, &arg[2]);
    put_int(&mut bytes, 20, &arg[3]);
    put_int(&mut bytes, 24, &arg[4]);
    put_int(&mut bytes, 28, &arg[5]);
    bytes
}

/// Puts the bytes of a message into the object of `m_in`, whose row is 0, or of `m_out`, whose row is 1.
pub(crate) fn put_bytes<'a, B: Bytes>(machine: &mut Machine<'a, B>, row: usize, bytes: &[u8])
    requires idle { is_running machine.old.process.activity ≡ false }
    requires messages { has_messages machine.old.process.rows ≡ true }
    requires row { row < 2 }
    requires long { length bytes.now ≡ MESSAGE_BYTES }
    ensures { machine.new ≡ with_process machine.old (with_content machine.old.process (with_bytes machine.old.process.rows row bytes.now machine.old.process.content)) }
{
    let row = machine.objects().row(row);
    machine.put(row.addr, bytes);
}
