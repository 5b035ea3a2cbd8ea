//! What devices do.

ghost use Rattle.std.specs.Prelude.{◌≡◌, ◌≤◌, length};
ghost use Rattle.trace_gen.specs.Scripts.{sendings_of, calls_after, scripts_of};

/// What a device does, one message after the other.
#[derive(Clone, Copy, Debug, PartialEq, Eq)]
pub enum Script {
    /// It attaches (TS 23.401, 5.3.2.1).
    Attach,
    /// Its S1 connection is released for inactivity (5.3.5).
    Release,
    /// It asks for service (5.3.4.1).
    Service,
    /// It updates its tracking area, and stays idle (5.3.3).
    Area,
    /// It detaches (5.3.8.2).
    Detach,
}

/// A message of a script.
#[derive(Clone, Copy, Debug, PartialEq, Eq)]
pub enum Sending {
    /// ATTACH REQUEST in an INITIAL UE MESSAGE.
    AttachRequest,
    /// AUTHENTICATION RESPONSE.
    AuthenticationResponse,
    /// SECURITY MODE COMPLETE.
    SecurityComplete,
    /// INITIAL CONTEXT SETUP RESPONSE in an attach.
    AttachContext,
    /// UE CAPABILITY INFO INDICATION.
    RadioCapability,
    /// ATTACH COMPLETE.
    AttachComplete,
    /// UE CONTEXT RELEASE REQUEST.
    ReleaseRequest,
    /// UE CONTEXT RELEASE COMPLETE.
    ReleaseComplete,
    /// SERVICE REQUEST in an INITIAL UE MESSAGE.
    ServiceRequest,
    /// INITIAL CONTEXT SETUP RESPONSE in a service request.
    ServiceContext,
    /// TRACKING AREA UPDATE REQUEST in an INITIAL UE MESSAGE.
    AreaRequest,
    /// DETACH REQUEST.
    DetachRequest,
}

/// A call that the core makes after a message.
#[derive(Clone, Copy, Debug, PartialEq, Eq)]
pub enum Call {
    /// Of the subscriber server.
    Subscriber,
    /// Of the gateway.
    Gateway,
    /// The notice to the subscriber server that the device is gone. It has no answer.
    Notice,
}

/// A message that a device sends.
#[derive(Clone, Copy, Debug, PartialEq, Eq)]
pub struct Sent {
    /// The device, from 1.
    pub device: u32,
    /// The message.
    pub sending: Sending,
}

/// The messages of a script, in order.
pub fn sendings_of(script: Script) -> &'static [Sending]
    ensures { result.now ≡ sendings_of script }
{
    match script {
        Script::Attach => &[
            Sending::AttachRequest,
            Sending::AuthenticationResponse,
            Sending::SecurityComplete,
            Sending::AttachContext,
            Sending::RadioCapability,
            Sending::AttachComplete,
        ],
        Script::Release => &[Sending::ReleaseRequest, Sending::ReleaseComplete],
        Script::Service => &[Sending::ServiceRequest, Sending::ServiceContext],
        Script::Area => &[Sending::AreaRequest, Sending::ReleaseComplete],
        Script::Detach => &[Sending::DetachRequest, Sending::ReleaseComplete],
    }
}

/// The calls after a message, in order.
pub fn calls_after(sending: Sending) -> &'static [Call]
    ensures calls { result.now ≡ calls_after sending }
    ensures few { length result.now ≤ 2 }
{
    match sending {
        Sending::AttachRequest => &[Call::Subscriber],
        Sending::SecurityComplete => &[Call::Subscriber, Call::Gateway],
        Sending::AttachComplete | Sending::ReleaseRequest | Sending::ServiceContext => {
            &[Call::Gateway]
        }
        Sending::DetachRequest => &[Call::Gateway, Call::Notice],
        Sending::AuthenticationResponse
        | Sending::AttachContext
        | Sending::RadioCapability
        | Sending::ReleaseComplete
        | Sending::ServiceRequest
        | Sending::AreaRequest => &[],
    }
}

/// The scripts of a visit behind the first round, by a draw below 3.
pub fn scripts_of(draw: u64) -> &'static [Script]
    ensures { result.now ≡ scripts_of draw }
{
    match draw {
        0 => &[Script::Release, Script::Service],
        1 => &[Script::Release, Script::Area, Script::Service],
        _ => &[Script::Detach, Script::Attach],
    }
}
