ghost use Rattle.std.specs.Prelude.{◌≡◌, ◌≤◌, length};
ghost use Rattle.qmux_frame.specs.Head.{service_of};
ghost use Rattle.qmux_frame.specs.Reply.{with_number};

use kit_bytes::u16_bytes;

/// Gives a message another number. Its first 12 bytes are enough.
pub fn set_number(message: &mut [u8], number: u16)
    requires head { 12 ≤ length message.old }
    requires fits { service_of message.old ≡ 0 → number ≤ 255 }
    ensures { message.new ≡ with_number number message.old }
{
    let [low, high] = u16_bytes(number);
    message[7] = low;
    if message[4] != 0 {
        message[8] = high;
    }
}
