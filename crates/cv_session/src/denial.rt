//! Why a request asks no step of the gate.
ghost use Rattle.std.specs.Prelude.{◌≡◌};
ghost use Rattle.cv_keys.specs.declared.auth_fault.AuthFault.TheVariants as auth;
ghost use Rattle.cv_messages.specs.declared.message_fault.MessageFault.TheVariants as message;
ghost use Rattle.cv_session.specs.DenialsInner.{turn_of};
ghost use Rattle.cv_session.specs.Turns.{denied_header, denied_message};
ghost use Rattle.cv_session.specs.declared.denial.Denial.TheVariants as denials;
ghost use Rattle.cv_answers.specs.declared.refusal.Refusal.TheVariants.{Plain};

use cv_answers::{Reason, Refusal};
use cv_base::NoMemory;
use cv_keys::AuthFault;
use cv_messages::MessageFault;

/// Why a request for a step asks none.
#[derive(Debug, Drop)]
pub(crate) enum Denial {
    /// The interface refuses it.
    Refused(Refusal),
    /// There was no memory.
    NoMemory,
}

impl Denial {
    /// A refusal that says its reason alone.
    pub(crate) fn new(reason: Reason) -> Denial
        ensures { result ≡ denials.Refused (Plain reason) }
    {
        Denial::Refused(Refusal::Plain(reason))
    }
}

impl From<NoMemory> for Denial {
    ghost from_gives = { λ _ denial. denial ≡ denials.NoMemory };

    fn from(_error: NoMemory) -> Denial {
        Denial::NoMemory
    }
}

impl From<AuthFault> for Denial {
    ghost from_gives = { λ fault denial. (turn_of denial ≡ denied_header fault) × (fault ≡ auth.NoMemory → denial ≡ denials.NoMemory) };

    fn from(fault: AuthFault) -> Denial {
        match fault {
            AuthFault::NoHeader => Denial::new(Reason::NoAuthorization),
            AuthFault::BadHeader => Denial::new(Reason::BadAuthorization),
            AuthFault::UnknownKey => Denial::new(Reason::UnknownKey),
            AuthFault::WrongMac => Denial::new(Reason::WrongMac),
            AuthFault::NoMemory => Denial::NoMemory,
        }
    }
}

impl From<MessageFault> for Denial {
    ghost from_gives = { λ fault denial. (turn_of denial ≡ denied_message fault) × (fault ≡ message.NoMemory → denial ≡ denials.NoMemory) };

    fn from(fault: MessageFault) -> Denial {
        match fault {
            MessageFault::NotJson => Denial::new(Reason::NotJson),
            MessageFault::Missing(member) => Denial::Refused(Refusal::MissingMember(member)),
            MessageFault::WrongType(member) => Denial::Refused(Refusal::WrongType(member)),
            MessageFault::BadValue(member) => Denial::Refused(Refusal::BadValue(member)),
            MessageFault::NoMemory => Denial::NoMemory,
        }
    }
}
