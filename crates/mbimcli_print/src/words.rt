ghost use Rattle.std.specs.Prelude.{◌≡◌};
ghost use Rattle.std.specs.Option.{option_copied};
ghost use Rattle.mbimcli_print.specs.Words.{word_for, word_of, words_for};

/// The words for the numbers of a field.
#[derive(Clone, Copy)]
pub enum Words {
    /// Those for the state of the subscriber.
    Ready,
    /// Those for the state of a radio.
    Radio,
    /// Those for the state of a PIN.
    Pin,
    /// Those for the state of registration.
    Register,
    /// Those for the state of the packet service.
    Packet,
    /// Those for the state of a connection.
    Activation,
}

/// The word for a number of the field of a name, where it has one.
pub fn word_for(name: &str, number: u64) -> Option<&'static str>
    ensures { option_copied result ≡ word_for name.now number }
{
    word(words_for(name)?, number)
}

// Which words the numbers of the field of a name have.
fn words_for(name: &str) -> Option<Words>
    ensures { result ≡ words_for name.now }
{
    match name {
        "ReadyState" => Some(Words::Ready),
        "HwRadioState" | "SwRadioState" => Some(Words::Radio),
        "PinState" => Some(Words::Pin),
        "RegisterState" => Some(Words::Register),
        "PacketServiceState" => Some(Words::Packet),
        "ActivationState" => Some(Words::Activation),
        _ => None,
    }
}

fn word(words: Words, number: u64) -> Option<&'static str>
    ensures { option_copied result ≡ word_of words number }
{
    let word = match (words, number) {
        (Words::Ready, 0) => "not-initialized",
        (Words::Ready, 1) => "initialized",
        (Words::Ready, 2) => "sim-not-inserted",
        (Words::Ready, 3) => "bad-sim",
        (Words::Ready, 4) => "failure",
        (Words::Ready, 5) => "not-activated",
        (Words::Ready, 6) => "device-locked",
        (Words::Radio, 0) => "off",
        (Words::Radio, 1) => "on",
        (Words::Pin, 0) => "unlocked",
        (Words::Pin, 1) => "locked",
        (Words::Register, 0) => "unknown",
        (Words::Register, 1) => "deregistered",
        (Words::Register, 2) => "searching",
        (Words::Register, 3) => "home",
        (Words::Register, 4) => "roaming",
        (Words::Register, 5) => "partner",
        (Words::Register, 6) => "denied",
        (Words::Packet, 0) => "unknown",
        (Words::Packet, 1) => "attaching",
        (Words::Packet, 2) => "attached",
        (Words::Packet, 3) => "detaching",
        (Words::Packet, 4) => "detached",
        (Words::Activation, 0) => "unknown",
        (Words::Activation, 1) => "activated",
        (Words::Activation, 2) => "activating",
        (Words::Activation, 3) => "deactivated",
        (Words::Activation, 4) => "deactivating",
        _ => return None,
    };
    Some(word)
}
