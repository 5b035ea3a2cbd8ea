//! One small case for each row of the step table, and for each way in which a row can fit; then what does not fit, in each stage.
//!
//! A line is `SESSION | INPUT | FIELDS | EFFECTS`. A session is its stage, its S1 connection, its bearer, what holds of it, and behind a
//! plus its second connection, where it has one; its other fields are those of `session`. An input is a message or an answer; inputs with
//! commas between them come one by one to the same session, and to the same end. The fields are those that the step changes.

use super::{message, octets, pair, subscriber, write_cause, write_effects};
use device_machine::step;
use device_types::{
    Answer, Bearer, CauseCode, Input, Key, Lane, Link, Second, Session, ShortOctets, Stage, Step,
    Subscriber,
};
use std::alloc::{AllocError, Global};
use std::fmt::Debug;
use std::test::Fail;

/// Attach (5.3.2.1), service request (5.3.4.1), data that waits (5.3.4.3) and S1 release (5.3.5), tracking area update (5.3.3) and
/// detach (5.3.8.2), row by row: the subscriber is not served in the areas 8 and 9, and is in area 7. Then what fits no row:
/// messages on the session's own connection that its stage does not take, and those that it would take on others (another number at
/// its base station, and its number at another one); each kind of message while an answer is awaited; a notice in each stage but
/// one; and answers that are not awaited, in each stage. A second connection (5.10.2) has rows of its own, and changes of other rows,
/// among them.
const STEPS: &str = "\
Detached none None | 2/5 Attach 9 | stage=Releasing link=2/5 cause=2/0 | nas 2/5 AttachReject { cause: 12 }; release 2/5 2/0;
Securing 1/3 None | 1/3 Attach 9 | stage=Releasing cause=2/0 | nas 1/3 AttachReject { cause: 12 }; release 1/3 2/0;
Idle none Made registered | 2/5 Attach 9 | stage=AwaitDelete link=2/5 registered=false off=true cause=2/0 | nas 2/5 AttachReject { cause: 12 }; gateway Delete;
Connected 1/3 Active registered | 1/4 Attach 9 | stage=AwaitDelete link=1/4 registered=false off=true cause=2/0 | release 1/3 2/0; nas 1/4 AttachReject { cause: 12 }; gateway Delete;
Connecting 1/3 Made registered | 2/5 Attach 9 | stage=AwaitDelete link=2/5 registered=false off=true cause=2/0 | release 1/3 2/0; nas 2/5 AttachReject { cause: 12 }; gateway Delete;
Detached none None | 2/5 Attach 8 | stage=Releasing link=2/5 cause=2/0 | nas 2/5 AttachReject { cause: 12 }; release 2/5 2/0;
Detached none None | 2/5 Attach 7 | stage=AwaitVectors link=2/5 area=(31, 7) algorithms=(32, 33) pti=34 | subscriber Vectors;
Authenticating 1/3 None | 1/3 Attach 7 | stage=AwaitVectors area=(31, 7) algorithms=(32, 33) pti=34 | subscriber Vectors;
Connected 1/3 Active registered | 2/3 Attach 7 | stage=AwaitVectors link=2/3 registered=false area=(31, 7) algorithms=(32, 33) pti=34 | release 1/3 2/0; subscriber Vectors;
Securing 1/3 None | 2/5 Attach 7 | stage=AwaitVectors link=2/5 area=(31, 7) algorithms=(32, 33) pti=34 | release 1/3 2/0; subscriber Vectors;
Accepting 1/3 Made | 1/4 Attach 7 | stage=AwaitVectors link=1/4 area=(31, 7) algorithms=(32, 33) pti=34 | release 1/3 2/0; subscriber Vectors;
AcceptingContext 1/3 Made | 1/3 Attach 7 | stage=AwaitVectors area=(31, 7) algorithms=(32, 33) pti=34 | subscriber Vectors;
AcceptingDone 1/3 Made | 2/3 Attach 7 | stage=AwaitVectors link=2/3 area=(31, 7) algorithms=(32, 33) pti=34 | release 1/3 2/0; subscriber Vectors;
Connecting 1/3 Made registered | 2/5 Attach 7 | stage=AwaitVectors link=2/5 registered=false area=(31, 7) algorithms=(32, 33) pti=34 | release 1/3 2/0; subscriber Vectors;
Releasing 1/3 None | 1/3 Attach 7 | stage=AwaitVectors area=(31, 7) algorithms=(32, 33) pti=34 | subscriber Vectors;
Releasing 1/3 Made registered | 1/4 Attach 7 | stage=AwaitVectors link=1/4 registered=false area=(31, 7) algorithms=(32, 33) pti=34 | release 1/3 2/0; subscriber Vectors;
Idle none Made registered | 2/5 Attach 7 | stage=AwaitVectors link=2/5 registered=false area=(31, 7) algorithms=(32, 33) pti=34 | subscriber Vectors;
AwaitVectors 1/3 None | answer Vectors | stage=Authenticating vector=([53], [54]) | nas 1/3 AuthRequest { rand: ListOf { items: [51] }, autn: ListOf { items: [52] } };
Authenticating 1/3 None | 1/3 Response 16 | stage=Securing | nas 1/3 SecurityCommand { eea: 13, eia: 14 };
Authenticating 1/3 None | 1/3 Response 17 | stage=Releasing cause=2/1 | nas 1/3 AuthReject; release 1/3 2/1;
Authenticating 1/3 None | 1/3 Response | stage=Releasing cause=2/1 | nas 1/3 AuthReject; release 1/3 2/1;
Authenticating 1/3 Made | 1/3 Response 17 | stage=AwaitDelete off=true cause=2/1 | nas 1/3 AuthReject; gateway Delete;
Authenticating 1/3 Active | 1/3 Response 17 | stage=AwaitDelete off=true cause=2/1 | nas 1/3 AuthReject; gateway Delete;
Securing 1/3 None | 1/3 Secured | stage=AwaitLocation | subscriber Location;
Securing 1/3 None | 1/3 SecurityRefused | stage=Releasing cause=2/3 | release 1/3 2/3;
Securing 1/3 Made | 1/3 SecurityRefused | stage=AwaitDelete off=true cause=2/3 | gateway Delete;
AwaitLocation 1/3 None | answer Located | stage=AwaitCreate rates=(55, 56) | gateway Create;
AwaitCreate 1/3 None | answer Created | stage=Accepting bearer=Made tunnel=(57, 58) ip=59 | setup 1/3 18 19 57 58 13 14 [17] Yes { plmn: 11, tac: 12, pti: 15, ip: 59 };
Accepting 1/3 Made | 1/3 ContextDone | stage=AcceptingContext side=(41, 42) |
Accepting 1/3 Made | 1/3 ContextDone second | stage=AcceptingContext side=(41, 42) |
AcceptingDone 1/3 Made | 1/3 ContextDone | stage=AwaitModify side=(41, 42) | gateway Modify(41, 42);
AcceptingDone 1/3 Made | 1/3 ContextDone second | stage=AwaitModify side=(41, 42) | gateway Modify(41, 42);
Accepting 1/3 Made | 1/3 AttachDone | stage=AcceptingDone |
AcceptingContext 1/3 Made | 1/3 AttachDone | stage=AwaitModify | gateway Modify(23, 24);
Accepting 1/3 Made | 1/3 ContextFailed | stage=AwaitDelete off=true cause=2/3 | gateway Delete;
AcceptingDone 1/3 Made | 1/3 ContextFailed | stage=AwaitDelete off=true cause=2/3 | gateway Delete;
Authenticating 1/3 None | 1/3 ReleaseAsked | stage=Releasing cause=0/20+ | release 1/3 0/20+;
Securing 1/3 Active | 1/3 ReleaseAsked | stage=AwaitDelete off=true cause=0/20+ | gateway Delete;
Accepting 1/3 Made | 1/3 ReleaseAsked | stage=AwaitDelete off=true cause=0/20+ | gateway Delete;
AcceptingContext 1/3 Made | 1/3 ReleaseAsked | stage=AwaitDelete off=true cause=0/20+ | gateway Delete;
AcceptingDone 1/3 Made | 1/3 ReleaseAsked | stage=AwaitDelete off=true cause=0/20+ | gateway Delete;
AwaitModify 1/3 Made | answer Modified | stage=Connected bearer=Active registered=true |
Idle none Made registered | 2/5 Service | stage=Connecting link=2/5 | setup 2/5 18 19 20 21 13 14 [17] No;
Connecting 1/3 Made registered | 1/3 Service | | setup 1/3 18 19 20 21 13 14 [17] No;
Connected 1/3 Active registered | 1/4 Service | stage=Connecting link=1/4 | release 1/3 2/0; setup 1/4 18 19 20 21 13 14 [17] No;
Releasing 1/3 Made registered | 2/3 Service | stage=Connecting link=2/3 | release 1/3 2/0; setup 2/3 18 19 20 21 13 14 [17] No;
Detached none None | 2/5 Service | | nas 2/5 ServiceReject { cause: 10 };
Releasing 1/3 None | 2/5 Service | | nas 2/5 ServiceReject { cause: 10 };
Authenticating 1/3 None | 1/3 Service | | nas 1/3 ServiceReject { cause: 10 };
Securing 1/3 None | 2/5 Service | | nas 2/5 ServiceReject { cause: 10 };
Accepting 1/3 Made | 2/5 Service | | nas 2/5 ServiceReject { cause: 10 };
AcceptingContext 1/3 Made | 2/5 Service | | nas 2/5 ServiceReject { cause: 10 };
AcceptingDone 1/3 Made | 2/5 Service | | nas 2/5 ServiceReject { cause: 10 };
Connecting 1/3 Made registered | 1/3 ContextDone | stage=AwaitModify side=(41, 42) | gateway Modify(41, 42);
Connecting 1/3 Made registered | 1/3 ContextDone second | stage=AwaitModify side=(41, 42) | gateway Modify(41, 42);
Connecting 1/3 Active registered | 1/3 ContextDone | stage=AwaitModify side=(41, 42) | gateway Modify(41, 42);
AwaitModify 1/3 Made registered | answer Modified | stage=Connected bearer=Active |
Connecting 1/3 Made registered | 1/3 ContextFailed | stage=Releasing cause=2/3 | release 1/3 2/3;
Connecting 1/3 Active registered | 1/3 ContextFailed | stage=AwaitRelease cause=2/3 | gateway Release;
Connecting 1/3 None registered | 1/3 ContextFailed | stage=Releasing cause=2/3 | release 1/3 2/3;
Idle none Made registered | 0/0 Data | | page 11 12;
Idle 1/3 Active registered | 0/0 Data | | page 11 12;
Connecting 1/3 None registered | 1/3 ReleaseAsked | stage=Releasing cause=0/20+ | release 1/3 0/20+;
Connecting 1/3 Made registered | 1/3 ReleaseAsked | stage=Releasing cause=0/20+ | release 1/3 0/20+;
Connecting 1/3 Active registered | 1/3 ReleaseAsked | stage=AwaitRelease cause=0/20+ | gateway Release;
Connected 1/3 Active registered | 1/3 ReleaseAsked | stage=AwaitRelease cause=0/20+ | gateway Release;
AwaitRelease 1/3 Active registered | answer Freed | stage=Releasing bearer=Made | release 1/3 3/5;
Releasing 1/3 Made registered | 1/3 Released | stage=Idle link=none |
Releasing 1/3 None | 1/3 Released | stage=Detached link=none |
Connected 1/3 Active registered | 1/3 Capability | radio=3 |
Securing 1/3 None | 1/3 Capability | radio=3 |
Authenticating 1/3 None | 1/3 Capability | radio=3 |
Accepting 1/3 Made | 1/3 Capability | radio=3 |
AcceptingContext 1/3 Made | 1/3 Capability | radio=3 |
AcceptingDone 1/3 Made | 1/3 Capability | radio=3 |
Connecting 1/3 Made registered | 1/3 Capability | radio=3 |
Releasing 1/3 Made registered | 1/3 Capability | radio=3 |
Releasing 1/3 None | 1/3 Capability | radio=3 |
Idle none Made registered | 2/5 Area first 9 | stage=Releasing link=2/5 cause=2/0 | nas 2/5 AreaReject { cause: 12 }; release 2/5 2/0;
Connecting 1/3 None registered | 1/3 Area first 9 | stage=Releasing cause=2/0 | nas 1/3 AreaReject { cause: 12 }; release 1/3 2/0;
Connected 1/3 Active registered | 2/3 Area first 9 | stage=AwaitRelease link=2/3 cause=2/0 | release 1/3 2/0; nas 2/3 AreaReject { cause: 12 }; gateway Release;
Releasing 1/3 Made registered | 2/5 Area first 9 | link=2/5 cause=2/0 | release 1/3 2/0; nas 2/5 AreaReject { cause: 12 }; release 2/5 2/0;
Idle none Made registered | 2/5 Area first 8 | stage=Releasing link=2/5 cause=2/0 | nas 2/5 AreaReject { cause: 12 }; release 2/5 2/0;
Idle none Made registered | 2/5 Area first 7 | stage=Releasing link=2/5 area=(35, 7) cause=2/0 | nas 2/5 AreaAccept; release 2/5 2/0;
Connected 1/3 Active registered | 1/3 Area first 7 | stage=AwaitRelease area=(35, 7) cause=2/0 | nas 1/3 AreaAccept; gateway Release;
Connecting 1/3 Active registered | 1/4 Area first 7 | stage=AwaitRelease link=1/4 area=(35, 7) cause=2/0 | release 1/3 2/0; nas 1/4 AreaAccept; gateway Release;
Releasing 1/3 Made registered | 2/5 Area first 7 | link=2/5 area=(35, 7) cause=2/0 | release 1/3 2/0; nas 2/5 AreaAccept; release 2/5 2/0;
Detached none None | 2/5 Area first 7 | | nas 2/5 AreaReject { cause: 9 };
Detached none None | 2/5 Area first 9 | | nas 2/5 AreaReject { cause: 9 };
Releasing 1/3 None | 1/3 Area first 7 | | nas 1/3 AreaReject { cause: 9 };
Accepting 1/3 Made | 2/5 Area first 7 | | nas 2/5 AreaReject { cause: 9 };
Authenticating 1/3 None | 2/5 Area first 7 | | nas 2/5 AreaReject { cause: 9 };
Securing 1/3 None | 1/4 Area first 9 | | nas 1/4 AreaReject { cause: 9 };
AcceptingContext 1/3 Made | 2/3 Area first 7 | | nas 2/3 AreaReject { cause: 9 };
AcceptingDone 1/3 Made | 1/3 Area first 9 | | nas 1/3 AreaReject { cause: 9 };
Connected 1/3 Active registered | 1/3 Area later 9 | | nas 1/3 AreaReject { cause: 12 };
Connected 1/3 Active registered | 1/3 Area later 8 | | nas 1/3 AreaReject { cause: 12 };
Connected 1/3 Active registered | 1/3 Area later 7 | area=(35, 7) | nas 1/3 AreaAccept;
Detached none None | 2/5 Detach first | | nas 2/5 DetachAccept;
Detached none None | 2/5 Detach first off | |
Releasing 1/3 None | 2/5 Detach first | | nas 2/5 DetachAccept;
Releasing 1/3 None | 1/3 Detach first off | |
Securing 1/3 None | 2/5 Detach first | stage=Releasing link=2/5 cause=2/2 | release 1/3 2/0; nas 2/5 DetachAccept; release 2/5 2/2;
Securing 1/3 None | 1/3 Detach first off | stage=Releasing cause=2/2 | release 1/3 2/2;
Authenticating 1/3 None | 1/4 Detach first | stage=Releasing link=1/4 cause=2/2 | release 1/3 2/0; nas 1/4 DetachAccept; release 1/4 2/2;
Accepting 1/3 Made | 2/5 Detach first | stage=AwaitDelete link=2/5 cause=2/2 | release 1/3 2/0; gateway Delete;
AcceptingContext 1/3 Made | 1/4 Detach first off | stage=AwaitDelete link=1/4 off=true cause=2/2 | release 1/3 2/0; gateway Delete;
AcceptingDone 1/3 Made | 1/3 Detach first | stage=AwaitDelete cause=2/2 | gateway Delete;
Connecting 1/3 Made registered | 2/3 Detach first | stage=AwaitDelete link=2/3 registered=false cause=2/2 | release 1/3 2/0; gateway Delete;
Connecting 1/3 None registered | 1/4 Detach first off | stage=Releasing link=1/4 registered=false cause=2/2 | release 1/3 2/0; release 1/4 2/2;
Idle none Made registered | 2/5 Detach first | stage=AwaitDelete link=2/5 registered=false cause=2/2 | gateway Delete;
Idle none Made registered | 2/5 Detach first off | stage=AwaitDelete link=2/5 registered=false off=true cause=2/2 | gateway Delete;
Releasing 1/3 Made registered | 1/3 Detach first | stage=AwaitDelete registered=false cause=2/2 | gateway Delete;
Connected 1/3 Active registered | 1/4 Detach first | stage=AwaitDelete link=1/4 registered=false cause=2/2 | release 1/3 2/0; gateway Delete;
Authenticating 1/3 None | 1/3 Detach later | stage=Releasing cause=2/2 | nas 1/3 DetachAccept; release 1/3 2/2;
Securing 1/3 None | 1/3 Detach later off | stage=Releasing cause=2/2 | release 1/3 2/2;
Accepting 1/3 Made | 1/3 Detach later | stage=AwaitDelete cause=2/2 | gateway Delete;
AcceptingContext 1/3 Made | 1/3 Detach later off | stage=AwaitDelete off=true cause=2/2 | gateway Delete;
AcceptingDone 1/3 Made | 1/3 Detach later | stage=AwaitDelete cause=2/2 | gateway Delete;
Connecting 1/3 None registered | 1/3 Detach later | stage=Releasing registered=false cause=2/2 | nas 1/3 DetachAccept; release 1/3 2/2;
Connecting 1/3 Made registered | 1/3 Detach later | stage=AwaitDelete registered=false cause=2/2 | gateway Delete;
Connected 1/3 Active registered off | 1/3 Detach later | stage=AwaitDelete registered=false off=false cause=2/2 | gateway Delete;
Connected 1/3 Active registered | 1/3 Detach later off | stage=AwaitDelete registered=false off=true cause=2/2 | gateway Delete;
AwaitDelete 1/3 Active | answer Deleted | stage=Releasing bearer=None | subscriber Purge; nas 1/3 DetachAccept; release 1/3 3/5;
AwaitDelete 1/3 Made off | answer Deleted | stage=Releasing bearer=None | subscriber Purge; release 1/3 3/5;
Authenticating 1/3 None | 1/4 Response 16 | |
AwaitLocation 1/3 None | 2/5 Service | |
Connected 1/3 Active registered | 2/3 Area later 7 | |
AwaitDelete 1/3 Made | 2/5 Detach first | |
AwaitDelete 1/3 Active | answer Freed | |
Detached none None | 1/3 Response 16, 1/3 Secured, 1/3 SecurityRefused, 1/3 AttachDone, 1/3 ContextDone, 1/3 ContextFailed, 1/3 ReleaseAsked, 1/3 Released, 1/3 Capability, 1/3 Area later 7, 1/3 Detach later | |
Authenticating 1/3 None | 1/3 Secured, 1/3 SecurityRefused, 1/3 AttachDone, 1/3 ContextDone, 1/3 ContextFailed, 1/3 Released, 1/3 Area later 7 | |
Securing 1/3 None | 1/3 Response 16, 1/3 AttachDone, 1/3 ContextDone, 1/3 ContextFailed, 1/3 Released, 1/3 Area later 7 | |
Accepting 1/3 Made | 1/3 Response 16, 1/3 Secured, 1/3 SecurityRefused, 1/3 Released, 1/3 Area later 7 | |
AcceptingContext 1/3 Made | 1/3 Response 16, 1/3 Secured, 1/3 SecurityRefused, 1/3 ContextDone, 1/3 ContextFailed, 1/3 Released, 1/3 Area later 7 | |
AcceptingDone 1/3 Made | 1/3 Response 16, 1/3 Secured, 1/3 SecurityRefused, 1/3 AttachDone, 1/3 Released, 1/3 Area later 7 | |
Connecting 1/3 Made registered | 1/3 Response 16, 1/3 Secured, 1/3 SecurityRefused, 1/3 AttachDone, 1/3 Released, 1/3 Area later 7 | |
Connected 1/3 Active registered | 1/3 Response 16, 1/3 Secured, 1/3 SecurityRefused, 1/3 AttachDone, 1/3 ContextDone, 1/3 ContextFailed, 1/3 Released | |
Releasing 1/3 Made registered | 1/3 Response 16, 1/3 Secured, 1/3 SecurityRefused, 1/3 AttachDone, 1/3 ContextDone, 1/3 ContextFailed, 1/3 ReleaseAsked, 1/3 Area later 7, 1/3 Detach later | |
Releasing 1/3 None | 1/3 Response 16, 1/3 Secured, 1/3 SecurityRefused, 1/3 AttachDone, 1/3 ContextDone, 1/3 ContextFailed, 1/3 ReleaseAsked, 1/3 Area later 7, 1/3 Detach later | |
Idle none Made registered | 1/3 Response 16, 1/3 Secured, 1/3 SecurityRefused, 1/3 AttachDone, 1/3 ContextDone, 1/3 ContextFailed, 1/3 ReleaseAsked, 1/3 Released, 1/3 Capability, 1/3 Area later 7, 1/3 Detach later | |
Authenticating 1/3 None | 1/4 Response 17, 2/3 Response 16, 1/4 ReleaseAsked, 2/3 Capability, 1/4 Detach later | |
Securing 1/3 None | 1/4 Secured, 2/3 Secured, 1/4 SecurityRefused, 2/3 SecurityRefused, 2/3 ReleaseAsked, 1/4 Capability, 2/3 Detach later off | |
Accepting 1/3 Made | 1/4 AttachDone, 2/3 AttachDone, 1/4 ContextDone, 2/3 ContextDone, 1/4 ContextFailed, 2/3 ContextFailed, 1/4 ReleaseAsked, 2/3 Detach later | |
AcceptingContext 1/3 Made | 1/4 AttachDone, 2/3 AttachDone, 2/3 ReleaseAsked, 1/4 Detach later | |
AcceptingDone 1/3 Made | 1/4 ContextDone, 2/3 ContextDone, 1/4 ContextFailed, 2/3 ContextFailed, 2/3 ReleaseAsked, 1/4 Detach later off | |
Connecting 1/3 Made registered | 1/4 ContextDone, 2/3 ContextDone, 1/4 ContextFailed, 2/3 ContextFailed, 1/4 ReleaseAsked, 2/3 Capability, 1/4 Detach later | |
Connected 1/3 Active registered | 1/4 ReleaseAsked, 2/3 ReleaseAsked, 1/4 Capability, 1/4 Area later 9, 1/4 Area later 7, 2/3 Area later 9, 2/3 Detach later, 1/4 Detach later off | |
Releasing 1/3 Made registered | 1/4 Released, 2/3 Released, 2/3 Capability | |
Releasing 1/3 None | 1/4 Released, 2/3 Released, 1/4 Capability | |
AwaitVectors 1/3 None | 1/3 Attach 7, 2/5 Attach 9, 1/4 Service, 2/5 Area first 7, 1/3 Area first 9, 2/3 Detach first, 1/3 Detach first off | |
AwaitVectors 1/3 None | 1/3 Response 16, 1/3 Secured, 1/3 SecurityRefused, 1/3 AttachDone, 1/3 ContextDone, 1/3 ContextFailed, 1/3 ReleaseAsked, 1/3 Released, 1/3 Capability, 1/3 Area later 7, 1/3 Detach later | |
AwaitLocation 1/3 None | 1/3 Attach 7, 2/5 Attach 9, 1/4 Service, 2/5 Area first 7, 1/3 Area first 9, 2/3 Detach first, 1/3 Detach first off | |
AwaitLocation 1/3 None | 1/3 Response 16, 1/3 Secured, 1/3 SecurityRefused, 1/3 AttachDone, 1/3 ContextDone, 1/3 ContextFailed, 1/3 ReleaseAsked, 1/3 Released, 1/3 Capability, 1/3 Area later 7, 1/3 Detach later | |
AwaitCreate 1/3 None | 1/3 Attach 7, 2/5 Attach 9, 1/4 Service, 2/5 Area first 7, 1/3 Area first 9, 2/3 Detach first, 1/3 Detach first off | |
AwaitCreate 1/3 None | 1/3 Response 16, 1/3 Secured, 1/3 SecurityRefused, 1/3 AttachDone, 1/3 ContextDone, 1/3 ContextFailed, 1/3 ReleaseAsked, 1/3 Released, 1/3 Capability, 1/3 Area later 7, 1/3 Detach later | |
AwaitModify 1/3 Made | 1/3 Attach 7, 2/5 Attach 9, 1/4 Service, 2/5 Area first 7, 1/3 Area first 9, 2/3 Detach first, 1/3 Detach first off | |
AwaitModify 1/3 Made | 1/3 Response 16, 1/3 Secured, 1/3 SecurityRefused, 1/3 AttachDone, 1/3 ContextDone, 1/3 ContextFailed, 1/3 ReleaseAsked, 1/3 Released, 1/3 Capability, 1/3 Area later 7, 1/3 Detach later | |
AwaitModify 1/3 Active registered | 1/3 Attach 7, 2/5 Attach 9, 1/4 Service, 2/5 Area first 7, 1/3 Area first 9, 2/3 Detach first, 1/3 Detach first off | |
AwaitModify 1/3 Active registered | 1/3 Response 16, 1/3 Secured, 1/3 SecurityRefused, 1/3 AttachDone, 1/3 ContextDone, 1/3 ContextFailed, 1/3 ReleaseAsked, 1/3 Released, 1/3 Capability, 1/3 Area later 7, 1/3 Detach later | |
AwaitRelease 1/3 Active registered | 1/3 Attach 7, 2/5 Attach 9, 1/4 Service, 2/5 Area first 7, 1/3 Area first 9, 2/3 Detach first, 1/3 Detach first off | |
AwaitRelease 1/3 Active registered | 1/3 Response 16, 1/3 Secured, 1/3 SecurityRefused, 1/3 AttachDone, 1/3 ContextDone, 1/3 ContextFailed, 1/3 ReleaseAsked, 1/3 Released, 1/3 Capability, 1/3 Area later 7, 1/3 Detach later | |
AwaitDelete 1/3 Made | 1/3 Attach 7, 2/5 Attach 9, 1/4 Service, 2/5 Area first 7, 1/3 Area first 9, 2/3 Detach first, 1/3 Detach first off | |
AwaitDelete 1/3 Made | 1/3 Response 16, 1/3 Secured, 1/3 SecurityRefused, 1/3 AttachDone, 1/3 ContextDone, 1/3 ContextFailed, 1/3 ReleaseAsked, 1/3 Released, 1/3 Capability, 1/3 Area later 7, 1/3 Detach later | |
Detached none None | 0/0 Data | |
Authenticating 1/3 None | 0/0 Data | |
Securing 1/3 None | 0/0 Data | |
Accepting 1/3 Made | 0/0 Data | |
AcceptingContext 1/3 Made | 0/0 Data | |
AcceptingDone 1/3 Made | 0/0 Data | |
Connecting 1/3 Made registered | 0/0 Data | |
Connected 1/3 Active registered | 0/0 Data | |
Releasing 1/3 Made registered | 0/0 Data | |
Releasing 1/3 None | 0/0 Data | |
AwaitVectors 1/3 None | 0/0 Data | |
AwaitLocation 1/3 None | 0/0 Data | |
AwaitCreate 1/3 None | 0/0 Data | |
AwaitModify 1/3 Made | 0/0 Data | |
AwaitModify 1/3 Active registered | 0/0 Data | |
AwaitRelease 1/3 Active registered | 0/0 Data | |
AwaitDelete 1/3 Made | 0/0 Data | |
AwaitVectors 1/3 None | answer Located, answer Created, answer Modified, answer Freed, answer Deleted, answer Purged | |
AwaitLocation 1/3 None | answer Vectors, answer Created, answer Modified, answer Freed, answer Deleted, answer Purged | |
AwaitCreate 1/3 None | answer Vectors, answer Located, answer Modified, answer Freed, answer Deleted, answer Purged | |
AwaitModify 1/3 Made | answer Vectors, answer Located, answer Created, answer Freed, answer Deleted, answer Purged | |
AwaitModify 1/3 Active registered | answer Vectors, answer Located, answer Created, answer Freed, answer Deleted, answer Purged | |
AwaitRelease 1/3 Active registered | answer Vectors, answer Located, answer Created, answer Modified, answer Deleted, answer Purged | |
AwaitDelete 1/3 Made | answer Vectors, answer Located, answer Created, answer Modified, answer Freed, answer Purged | |
Detached none None | answer Vectors, answer Located, answer Created, answer Modified, answer Freed, answer Deleted, answer Purged | |
Authenticating 1/3 None | answer Vectors, answer Located, answer Created, answer Modified, answer Freed, answer Deleted, answer Purged | |
Securing 1/3 None | answer Vectors, answer Located, answer Created, answer Modified, answer Freed, answer Deleted, answer Purged | |
Accepting 1/3 Made | answer Vectors, answer Located, answer Created, answer Modified, answer Freed, answer Deleted, answer Purged | |
AcceptingContext 1/3 Made | answer Vectors, answer Located, answer Created, answer Modified, answer Freed, answer Deleted, answer Purged | |
AcceptingDone 1/3 Made | answer Vectors, answer Located, answer Created, answer Modified, answer Freed, answer Deleted, answer Purged | |
Connecting 1/3 Made registered | answer Vectors, answer Located, answer Created, answer Modified, answer Freed, answer Deleted, answer Purged | |
Connected 1/3 Active registered | answer Vectors, answer Located, answer Created, answer Modified, answer Freed, answer Deleted, answer Purged | |
Releasing 1/3 Made registered | answer Vectors, answer Located, answer Created, answer Modified, answer Freed, answer Deleted, answer Purged | |
Releasing 1/3 None | answer Vectors, answer Located, answer Created, answer Modified, answer Freed, answer Deleted, answer Purged | |
Idle none Made registered | answer Vectors, answer Located, answer Created, answer Modified, answer Freed, answer Deleted, answer Purged | |
Connected 1/3 Active registered | 1/3 PdnRequest | stage=AwaitSecond second=(None, 45, 29) | gateway SecondCreate;
AwaitSecond 1/3 Active registered | answer SecondCreated | stage=Connected second=(Made, 26, 67) tunnel2=(65, 66) | erab 1/3 65 66 26 67;
Connected 1/3 Active registered +Made | 1/3 SecondDone | second=(Radio, 26, 29) side2=(46, 47) |
Connected 1/3 Active registered +Accepted | 1/3 SecondDone | stage=AwaitSecondModify side2=(46, 47) | gateway SecondModify(46, 47);
Connected 1/3 Active registered +Made | 1/3 PdnAccept | second=(Accepted, 26, 29) |
Connected 1/3 Active registered +Radio | 1/3 PdnAccept | stage=AwaitSecondModify | gateway SecondModify(30, 31);
AwaitSecondModify 1/3 Active registered +Radio | answer SecondModified | stage=Connected second=(Active, 26, 29) |
AwaitSecondModify 1/3 Active registered +Accepted | answer SecondModified | stage=Connected second=(Active, 26, 29) |
AwaitCreate 1/3 None +Made | answer Created | stage=Accepting bearer=Made tunnel=(57, 58) ip=59 second=(None, 26, 29) | setup 1/3 18 19 57 58 13 14 [17] Yes { plmn: 11, tac: 12, pti: 15, ip: 59 };
AwaitCreate 1/3 None +Active | answer Created | stage=Accepting bearer=Made tunnel=(57, 58) ip=59 second=(None, 26, 29) | setup 1/3 18 19 57 58 13 14 [17] Yes { plmn: 11, tac: 12, pti: 15, ip: 59 };
AwaitCreate 1/3 Active +Radio | answer Created | stage=Accepting bearer=Made tunnel=(57, 58) ip=59 second=(None, 26, 29) | setup 1/3 18 19 57 58 13 14 [17] Yes { plmn: 11, tac: 12, pti: 15, ip: 59 };
AwaitCreate 1/3 Made +Accepted | answer Created | stage=Accepting tunnel=(57, 58) ip=59 second=(None, 26, 29) | setup 1/3 18 19 57 58 13 14 [17] Yes { plmn: 11, tac: 12, pti: 15, ip: 59 };
AwaitDelete 1/3 Active +Active | answer Deleted | stage=Releasing bearer=None second=(None, 26, 29) | subscriber Purge; nas 1/3 DetachAccept; release 1/3 3/5;
AwaitDelete 1/3 Made off +Radio | answer Deleted | stage=Releasing bearer=None second=(None, 26, 29) | subscriber Purge; release 1/3 3/5;
AwaitDelete 1/3 Made +Made | answer Deleted | stage=Releasing bearer=None second=(None, 26, 29) | subscriber Purge; nas 1/3 DetachAccept; release 1/3 3/5;
AwaitDelete 1/3 Active off +Accepted | answer Deleted | stage=Releasing bearer=None second=(None, 26, 29) | subscriber Purge; release 1/3 3/5;
AwaitRelease 1/3 Active registered +Made | answer Freed | stage=Releasing bearer=Made | release 1/3 3/5;
AwaitRelease 1/3 Active registered +Radio | answer Freed | stage=Releasing bearer=Made second=(Made, 26, 29) | release 1/3 3/5;
AwaitRelease 1/3 Active registered +Accepted | answer Freed | stage=Releasing bearer=Made second=(Made, 26, 29) | release 1/3 3/5;
AwaitRelease 1/3 Active registered +Active | answer Freed | stage=Releasing bearer=Made second=(Made, 26, 29) | release 1/3 3/5;
Idle none Made registered +Made | 2/5 Service | stage=Connecting link=2/5 | setup two 2/5 18 19 20 21 13 14 [17] 27 28;
Connecting 1/3 Made registered +Radio | 1/3 Service | second=(Made, 26, 29) | setup two 1/3 18 19 20 21 13 14 [17] 27 28;
Connected 1/3 Active registered +Active | 1/4 Service | stage=Connecting link=1/4 second=(Made, 26, 29) | release 1/3 2/0; setup two 1/4 18 19 20 21 13 14 [17] 27 28;
Releasing 1/3 Made registered +Accepted | 2/3 Service | stage=Connecting link=2/3 second=(Made, 26, 29) | release 1/3 2/0; setup two 2/3 18 19 20 21 13 14 [17] 27 28;
Releasing 1/3 None +Active | 2/5 Service | | nas 2/5 ServiceReject { cause: 10 };
Accepting 1/3 Made +Radio | 2/5 Service | | nas 2/5 ServiceReject { cause: 10 };
Connecting 1/3 Made registered +Made | 1/3 ContextDone second | stage=AwaitModify side=(41, 42) second=(Radio, 26, 29) side2=(43, 44) | gateway Modify(41, 42);
Connecting 1/3 Made registered +Radio | 1/3 ContextDone second | stage=AwaitModify side=(41, 42) side2=(43, 44) | gateway Modify(41, 42);
Connecting 1/3 Made registered +Accepted | 1/3 ContextDone second | stage=AwaitModify side=(41, 42) second=(Radio, 26, 29) side2=(43, 44) | gateway Modify(41, 42);
Connecting 1/3 Made registered +Active | 1/3 ContextDone second | stage=AwaitModify side=(41, 42) second=(Radio, 26, 29) side2=(43, 44) | gateway Modify(41, 42);
Connecting 1/3 Made registered +Made | 1/3 ContextDone | stage=AwaitModify side=(41, 42) | gateway Modify(41, 42);
Accepting 1/3 Made +Made | 1/3 ContextDone second | stage=AcceptingContext side=(41, 42) |
AcceptingDone 1/3 Made +Active | 1/3 ContextDone second | stage=AwaitModify side=(41, 42) | gateway Modify(41, 42);
AwaitModify 1/3 Made registered +Radio | answer Modified | stage=AwaitSecondModify bearer=Active | gateway SecondModify(30, 31);
AwaitModify 1/3 Made +Radio | answer Modified | stage=AwaitSecondModify bearer=Active registered=true | gateway SecondModify(30, 31);
AwaitModify 1/3 Made registered +Made | answer Modified | stage=Connected bearer=Active |
AwaitModify 1/3 Made registered +Accepted | answer Modified | stage=Connected bearer=Active |
AwaitModify 1/3 Made registered +Active | answer Modified | stage=Connected bearer=Active |
Connected 1/3 Active registered +Active | 2/3 Attach 7 | stage=AwaitVectors link=2/3 registered=false area=(31, 7) algorithms=(32, 33) pti=34 | release 1/3 2/0; subscriber Vectors;
Connected 1/3 Active registered +Active | 2/5 Attach 9 | stage=AwaitDelete link=2/5 registered=false off=true cause=2/0 | release 1/3 2/0; nas 2/5 AttachReject { cause: 12 }; gateway Delete;
AwaitVectors 1/3 Active +Active | answer Vectors | stage=Authenticating vector=([53], [54]) | nas 1/3 AuthRequest { rand: ListOf { items: [51] }, autn: ListOf { items: [52] } };
Authenticating 1/3 Active +Active | 1/3 Response 17 | stage=AwaitDelete off=true cause=2/1 | nas 1/3 AuthReject; gateway Delete;
AwaitLocation 1/3 Active +Made | answer Located | stage=AwaitCreate rates=(55, 56) | gateway Create;
Connecting 1/3 Made registered +Made | 1/3 ContextFailed | stage=Releasing cause=2/3 | release 1/3 2/3;
Connected 1/3 Active registered +Active | 1/3 ReleaseAsked | stage=AwaitRelease cause=0/20+ | gateway Release;
Connected 1/3 Active registered +Radio | 1/3 Capability | radio=3 |
Releasing 1/3 Made registered +Made | 1/3 Released | stage=Idle link=none |
Connected 1/3 Active registered +Radio | 1/3 Area later 7 | area=(35, 7) | nas 1/3 AreaAccept;
Connected 1/3 Active registered +Accepted | 1/3 Area first 7 | stage=AwaitRelease area=(35, 7) cause=2/0 | nas 1/3 AreaAccept; gateway Release;
Idle none Made registered +Made | 2/5 Area first 7 | stage=Releasing link=2/5 area=(35, 7) cause=2/0 | nas 2/5 AreaAccept; release 2/5 2/0;
Idle none Made registered +Made | 2/5 Detach first | stage=AwaitDelete link=2/5 registered=false cause=2/2 | gateway Delete;
Connected 1/3 Active registered +Made | 1/3 Detach later off | stage=AwaitDelete registered=false off=true cause=2/2 | gateway Delete;
Idle none Made registered +Made | 0/0 Data | | page 11 12;
Connected 1/3 Active registered +Made | 1/3 PdnRequest, 1/3 SecondRefused, 1/4 SecondDone, 2/3 SecondDone, 1/4 PdnAccept, 2/3 PdnAccept | |
Connected 1/3 Active registered +Radio | 1/3 PdnRequest, 1/3 SecondDone, 1/3 SecondRefused, 1/4 PdnAccept, 2/3 PdnAccept | |
Connected 1/3 Active registered +Accepted | 1/3 PdnRequest, 1/3 PdnAccept, 1/3 SecondRefused, 1/4 SecondDone, 2/3 SecondDone | |
Connected 1/3 Active registered +Active | 1/3 PdnRequest, 1/3 PdnAccept, 1/3 SecondDone, 1/3 SecondRefused | |
Connected none Active registered | 1/3 PdnRequest, 1/3 PdnAccept, 1/3 SecondDone | |
Connected none Active registered +Made | 1/3 PdnAccept, 1/3 SecondDone | |
Detached none None +Made | 1/3 PdnRequest, 1/3 PdnAccept, 1/3 SecondDone, 1/3 SecondRefused | |
Authenticating 1/3 Active +Made | 1/3 PdnRequest, 1/3 PdnAccept, 1/3 SecondDone, 1/3 SecondRefused | |
Securing 1/3 Active +Made | 1/3 PdnRequest, 1/3 PdnAccept, 1/3 SecondDone, 1/3 SecondRefused | |
Accepting 1/3 Made +Made | 1/3 PdnRequest, 1/3 PdnAccept, 1/3 SecondDone, 1/3 SecondRefused | |
AcceptingContext 1/3 Made +Made | 1/3 PdnRequest, 1/3 PdnAccept, 1/3 SecondDone, 1/3 SecondRefused | |
AcceptingDone 1/3 Made +Made | 1/3 PdnRequest, 1/3 PdnAccept, 1/3 SecondDone, 1/3 SecondRefused | |
Connecting 1/3 Made registered +Made | 1/3 PdnRequest, 1/3 PdnAccept, 1/3 SecondDone, 1/3 SecondRefused | |
Releasing 1/3 Made registered +Made | 1/3 PdnRequest, 1/3 PdnAccept, 1/3 SecondDone, 1/3 SecondRefused | |
Idle none Made registered +Made | 1/3 PdnRequest, 1/3 PdnAccept, 1/3 SecondDone, 1/3 SecondRefused | |
AwaitVectors 1/3 Active +Made | 1/3 PdnRequest, 1/3 PdnAccept, 1/3 SecondDone, 1/3 SecondRefused | |
AwaitLocation 1/3 Active +Made | 1/3 PdnRequest, 1/3 PdnAccept, 1/3 SecondDone, 1/3 SecondRefused | |
AwaitCreate 1/3 Active +Made | 1/3 PdnRequest, 1/3 PdnAccept, 1/3 SecondDone, 1/3 SecondRefused | |
AwaitModify 1/3 Made registered +Made | 1/3 PdnRequest, 1/3 PdnAccept, 1/3 SecondDone, 1/3 SecondRefused | |
AwaitRelease 1/3 Active registered +Made | 1/3 PdnRequest, 1/3 PdnAccept, 1/3 SecondDone, 1/3 SecondRefused | |
AwaitDelete 1/3 Made +Made | 1/3 PdnRequest, 1/3 PdnAccept, 1/3 SecondDone, 1/3 SecondRefused | |
AwaitSecond 1/3 Active registered +Made | 1/3 PdnRequest, 1/3 PdnAccept, 1/3 SecondDone, 1/3 SecondRefused | |
AwaitRelease 1/3 Active registered +Radio | 1/3 PdnRequest, 1/3 PdnAccept, 1/3 SecondDone, 1/3 SecondRefused | |
AwaitModify 1/3 Made registered +Radio | 1/3 PdnRequest, 1/3 PdnAccept, 1/3 SecondDone, 1/3 SecondRefused | |
AwaitSecondModify 1/3 Active registered +Radio | 1/3 PdnRequest, 1/3 PdnAccept, 1/3 SecondDone, 1/3 SecondRefused | |
AwaitSecondModify 1/3 Active registered +Accepted | 1/3 PdnRequest, 1/3 PdnAccept, 1/3 SecondDone, 1/3 SecondRefused | |
Connected 1/3 Active registered +Made | 1/3 ContextDone second | |
Releasing 1/3 Made registered +Made | 1/3 ContextDone second | |
AcceptingContext 1/3 Made +Made | 1/3 ContextDone second | |
Connecting 1/3 Made registered +Made | 1/4 ContextDone second, 2/3 ContextDone second | |
AwaitModify 1/3 Made registered +Radio | 1/3 Service, 1/3 ContextDone second | |
Connecting 1/3 Made registered +Radio | answer Created, answer Modified, answer Freed, answer Deleted | |
Connected 1/3 Active registered +Active | answer Created, answer Modified, answer Freed, answer Deleted, answer SecondCreated, answer SecondModified | |
Connected 1/3 Active registered +Radio | answer Created, answer Modified, answer Freed, answer Deleted, answer SecondCreated, answer SecondModified | |
Idle none Made registered +Made | answer Created, answer Modified, answer Freed, answer Deleted, answer SecondCreated, answer SecondModified | |
AwaitCreate 1/3 Active +Active | answer Modified, answer Freed, answer Deleted, answer SecondCreated, answer SecondModified | |
AwaitModify 1/3 Made registered +Radio | answer Created, answer Freed, answer Deleted, answer SecondCreated, answer SecondModified | |
AwaitRelease 1/3 Active registered +Active | answer Created, answer Modified, answer Deleted, answer SecondCreated, answer SecondModified | |
AwaitDelete 1/3 Active +Active | answer Created, answer Modified, answer Freed, answer SecondCreated, answer SecondModified | |
Detached none None | 1/3 PdnRequest, 1/3 PdnAccept, 1/3 SecondDone, 1/3 SecondRefused | |
Authenticating 1/3 None | 1/3 PdnRequest, 1/3 PdnAccept, 1/3 SecondDone, 1/3 SecondRefused | |
Securing 1/3 None | 1/3 PdnRequest, 1/3 PdnAccept, 1/3 SecondDone, 1/3 SecondRefused | |
Accepting 1/3 Made | 1/3 PdnRequest, 1/3 PdnAccept, 1/3 SecondDone, 1/3 SecondRefused | |
AcceptingContext 1/3 Made | 1/3 PdnRequest, 1/3 PdnAccept, 1/3 SecondDone, 1/3 SecondRefused | |
AcceptingDone 1/3 Made | 1/3 PdnRequest, 1/3 PdnAccept, 1/3 SecondDone, 1/3 SecondRefused | |
Connecting 1/3 Made registered | 1/3 PdnRequest, 1/3 PdnAccept, 1/3 SecondDone, 1/3 SecondRefused | |
Connected 1/3 Active registered | 1/3 PdnAccept, 1/3 SecondDone, 1/3 SecondRefused | |
Releasing 1/3 Made registered | 1/3 PdnRequest, 1/3 PdnAccept, 1/3 SecondDone, 1/3 SecondRefused | |
Releasing 1/3 None | 1/3 PdnRequest, 1/3 PdnAccept, 1/3 SecondDone, 1/3 SecondRefused | |
Idle none Made registered | 1/3 PdnRequest, 1/3 PdnAccept, 1/3 SecondDone, 1/3 SecondRefused | |
AwaitVectors 1/3 None | 1/3 PdnRequest, 1/3 PdnAccept, 1/3 SecondDone, 1/3 SecondRefused | |
AwaitLocation 1/3 None | 1/3 PdnRequest, 1/3 PdnAccept, 1/3 SecondDone, 1/3 SecondRefused | |
AwaitCreate 1/3 None | 1/3 PdnRequest, 1/3 PdnAccept, 1/3 SecondDone, 1/3 SecondRefused | |
AwaitModify 1/3 Made | 1/3 PdnRequest, 1/3 PdnAccept, 1/3 SecondDone, 1/3 SecondRefused | |
AwaitModify 1/3 Active registered | 1/3 PdnRequest, 1/3 PdnAccept, 1/3 SecondDone, 1/3 SecondRefused | |
AwaitRelease 1/3 Active registered | 1/3 PdnRequest, 1/3 PdnAccept, 1/3 SecondDone, 1/3 SecondRefused | |
AwaitDelete 1/3 Made | 1/3 PdnRequest, 1/3 PdnAccept, 1/3 SecondDone, 1/3 SecondRefused | |
Connected 1/3 Active registered | 1/4 PdnRequest, 2/3 PdnRequest, 1/4 PdnAccept, 2/3 PdnAccept, 1/4 SecondDone, 2/3 SecondDone, 1/4 SecondRefused, 2/3 SecondRefused | |
AwaitSecond 1/3 Active registered | 1/3 Attach 7, 2/5 Attach 9, 1/4 Service, 2/5 Area first 7, 1/3 Area first 9, 2/3 Detach first, 1/3 Detach first off, 0/0 Data | |
AwaitSecond 1/3 Active registered | 1/3 Response 16, 1/3 Secured, 1/3 SecurityRefused, 1/3 AttachDone, 1/3 ContextDone, 1/3 ContextFailed, 1/3 ReleaseAsked, 1/3 Released, 1/3 Capability, 1/3 Area later 7, 1/3 Detach later | |
AwaitSecond 1/3 Active registered | 1/3 PdnRequest, 1/3 PdnAccept, 1/3 SecondDone, 1/3 SecondRefused | |
AwaitSecondModify 1/3 Active registered +Radio | 1/3 Attach 7, 2/5 Attach 9, 1/4 Service, 2/5 Area first 7, 1/3 Area first 9, 2/3 Detach first, 1/3 Detach first off, 0/0 Data | |
AwaitSecondModify 1/3 Active registered +Accepted | 1/3 Response 16, 1/3 Secured, 1/3 SecurityRefused, 1/3 AttachDone, 1/3 ContextDone, 1/3 ContextFailed, 1/3 ReleaseAsked, 1/3 Released, 1/3 Capability, 1/3 Area later 7, 1/3 Detach later | |
AwaitSecondModify 1/3 Active registered | 1/3 PdnRequest, 1/3 PdnAccept, 1/3 SecondDone, 1/3 SecondRefused | |
AwaitSecond 1/3 Active registered | answer Vectors, answer Located, answer Created, answer Modified, answer Freed, answer Deleted, answer Purged, answer SecondModified | |
AwaitSecondModify 1/3 Active registered +Radio | answer Vectors, answer Located, answer Created, answer Modified, answer Freed, answer Deleted, answer Purged, answer SecondCreated | |
Detached none None | answer SecondCreated, answer SecondModified | |
Authenticating 1/3 None | answer SecondCreated, answer SecondModified | |
Securing 1/3 None | answer SecondCreated, answer SecondModified | |
Accepting 1/3 Made | answer SecondCreated, answer SecondModified | |
AcceptingContext 1/3 Made | answer SecondCreated, answer SecondModified | |
AcceptingDone 1/3 Made | answer SecondCreated, answer SecondModified | |
Connecting 1/3 Made registered | answer SecondCreated, answer SecondModified | |
Connected 1/3 Active registered | answer SecondCreated, answer SecondModified | |
Releasing 1/3 Made registered | answer SecondCreated, answer SecondModified | |
Releasing 1/3 None | answer SecondCreated, answer SecondModified | |
Idle none Made registered | answer SecondCreated, answer SecondModified | |
AwaitVectors 1/3 None | answer SecondCreated, answer SecondModified | |
AwaitLocation 1/3 None | answer SecondCreated, answer SecondModified | |
AwaitCreate 1/3 None | answer SecondCreated, answer SecondModified | |
AwaitModify 1/3 Made | answer SecondCreated, answer SecondModified | |
AwaitModify 1/3 Active registered | answer SecondCreated, answer SecondModified | |
AwaitRelease 1/3 Active registered | answer SecondCreated, answer SecondModified | |
AwaitDelete 1/3 Made | answer SecondCreated, answer SecondModified | |
";

fn stage(word: &str) -> Result<Stage, Fail> {
    Ok(match word {
        "Detached" => Stage::Detached,
        "AwaitVectors" => Stage::AwaitVectors,
        "Authenticating" => Stage::Authenticating,
        "Securing" => Stage::Securing,
        "AwaitLocation" => Stage::AwaitLocation,
        "AwaitCreate" => Stage::AwaitCreate,
        "Accepting" => Stage::Accepting,
        "AcceptingContext" => Stage::AcceptingContext,
        "AcceptingDone" => Stage::AcceptingDone,
        "AwaitModify" => Stage::AwaitModify,
        "Connecting" => Stage::Connecting,
        "Connected" => Stage::Connected,
        "AwaitRelease" => Stage::AwaitRelease,
        "Releasing" => Stage::Releasing,
        "Idle" => Stage::Idle,
        "AwaitDelete" => Stage::AwaitDelete,
        "AwaitSecond" => Stage::AwaitSecond,
        "AwaitSecondModify" => Stage::AwaitSecondModify,
        _ => return Err(Fail::new("no such stage")),
    })
}

fn link(word: &str) -> Result<Link, Fail> {
    if word == "none" {
        return Ok(Link::Off);
    }
    let (station, enb) = pair(word)?;
    Ok(Link::On { station, enb })
}

fn bearer(word: &str) -> Result<Bearer, Fail> {
    match word {
        "None" => Ok(Bearer::None),
        "Made" => Ok(Bearer::Made),
        "Active" => Ok(Bearer::Active),
        _ => Err(Fail::new("no such bearer")),
    }
}

fn second_state(word: &str) -> Result<Second, Fail> {
    match word {
        "None" => Ok(Second::None),
        "Made" => Ok(Second::Made),
        "Radio" => Ok(Second::Radio),
        "Accepted" => Ok(Second::Accepted),
        "Active" => Ok(Second::Active),
        _ => Err(Fail::new("no such second connection")),
    }
}

/// Whether the device is registered, and whether it detaches since it is switched off.
fn holds(words: &str) -> Result<(bool, bool), Fail> {
    match words {
        "" => Ok((false, false)),
        "registered" => Ok((true, false)),
        "off" => Ok((false, true)),
        "registered off" => Ok((true, true)),
        _ => Err(Fail::new("no such words of a session")),
    }
}

/// The session of the words. Its other fields are numbers that differ.
fn session(alloc: Global, words: &str) -> Result<Session, Fail> {
    let (stage_word, rest) = words.split_once(" ").ok_or("no connection")?;
    let (link_word, rest) = rest.split_once(" ").ok_or("no bearer")?;
    let (rest, second_word) = rest.split_once(" +").unwrap_or((rest, "None"));
    let (bearer_word, words) = rest.split_once(" ").unwrap_or((rest, ""));
    let (registered, off) = holds(words)?;
    Ok(Session {
        stage: stage(stage_word)?,
        link: link(link_word)?,
        plmn: 11,
        tac: 12,
        eea: 13,
        eia: 14,
        pti: 15,
        res: ShortOctets::from_slice(alloc, &[16])?,
        key: Key::new(alloc, &[17])?,
        dl: 18,
        ul: 19,
        sgw: 20,
        teid: 21,
        ip: 22,
        side_addr: 23,
        side_teid: 24,
        bearer: bearer(bearer_word)?,
        registered,
        off,
        cause: CauseCode {
            group: 3,
            extended: false,
            index: 5,
        },
        radio: 25,
        second: second_state(second_word)?,
        pti2: 26,
        sgw2: 27,
        teid2: 28,
        ip2: 29,
        side2_addr: 30,
        side2_teid: 31,
    })
}

fn answer(alloc: Global, word: &str) -> Result<Answer, Fail> {
    Ok(match word {
        "Vectors" => Answer::Vectors(
            octets(alloc, 51)?,
            octets(alloc, 52)?,
            octets(alloc, 53)?,
            octets(alloc, 54)?,
        ),
        "Located" => Answer::Located(55, 56),
        "Created" => Answer::Created(57, 58, 59),
        "Modified" => Answer::Modified,
        "Freed" => Answer::Freed,
        "Deleted" => Answer::Deleted,
        "SecondCreated" => Answer::SecondCreated(65, 66, 67),
        "SecondModified" => Answer::SecondModified,
        "Purged" => Answer::Purged,
        _ => return Err(Fail::new("no such answer")),
    })
}

fn input(alloc: Global, words: &str) -> Result<Input, Fail> {
    match words.strip_prefix("answer ") {
        Some(word) => Ok(Input::Answer {
            lane: Lane::Gateway,
            k: 1,
            answer: answer(alloc, word)?,
        }),
        None => Ok(Input::Message(message(alloc, words)?)),
    }
}

fn write_change<T: Debug + PartialEq>(
    text: &mut String,
    name: &str,
    before: &T,
    after: &T,
) -> Result<(), AllocError> {
    if before != after {
        write!(text, " {name}={after:?}")?;
    }
    Ok(())
}

/// Each field that a step has changed; some of them in pairs.
fn write_changes(text: &mut String, old: &Session, new: &Session) -> Result<(), AllocError> {
    write_change(text, "stage", &old.stage, &new.stage)?;
    write_link(text, old.link, new.link)?;
    write_change(text, "bearer", &old.bearer, &new.bearer)?;
    write_change(text, "registered", &old.registered, &new.registered)?;
    write_change(text, "off", &old.off, &new.off)?;
    write_change(text, "area", &(old.plmn, old.tac), &(new.plmn, new.tac))?;
    write_change(text, "algorithms", &(old.eea, old.eia), &(new.eea, new.eia))?;
    write_change(text, "pti", &old.pti, &new.pti)?;
    write_change(text, "vector", &vector(old), &vector(new))?;
    write_change(text, "rates", &(old.dl, old.ul), &(new.dl, new.ul))?;
    write_change(text, "tunnel", &(old.sgw, old.teid), &(new.sgw, new.teid))?;
    write_change(text, "ip", &old.ip, &new.ip)?;
    write_change(text, "side", &side(old), &side(new))?;
    write_change(text, "radio", &old.radio, &new.radio)?;
    write_change(text, "second", &second(old), &second(new))?;
    write_change(text, "tunnel2", &tunnel2(old), &tunnel2(new))?;
    write_change(text, "side2", &side2(old), &side2(new))?;
    if old.cause != new.cause {
        text.push_str(" cause=")?;
        write_cause(text, new.cause)?;
    }
    Ok(())
}

fn vector(session: &Session) -> (&[u8], &[u8]) {
    (session.res.octets(), session.key.octets())
}

fn side(session: &Session) -> (u32, u32) {
    (session.side_addr, session.side_teid)
}

/// The second connection: whether there is one, the transaction that asked for it, and the device's address there.
fn second(session: &Session) -> (Second, u8, u32) {
    (session.second, session.pti2, session.ip2)
}

fn tunnel2(session: &Session) -> (u32, u32) {
    (session.sgw2, session.teid2)
}

fn side2(session: &Session) -> (u32, u32) {
    (session.side2_addr, session.side2_teid)
}

fn write_link(text: &mut String, old: Link, new: Link) -> Result<(), AllocError> {
    if old == new {
        return Ok(());
    }
    match new {
        Link::Off => text.push_str(" link=none"),
        Link::On { station, enb } => write!(text, " link={station}/{enb}"),
    }
}

/// What a step changes, and what it makes, put behind the text.
fn tell_step(text: &mut String, old: &Session, step: &Step) -> Result<(), AllocError> {
    write_changes(text, old, step.session.get())?;
    text.push_str(" |")?;
    write_effects(text, step.effects.items())
}

/// What an input comes to, put behind the text.
fn tell_input(
    alloc: Global,
    row: &Subscriber,
    session: &Session,
    came: &str,
    told: &mut String,
) -> Result<(), Fail> {
    let input = input(alloc, came)?;
    let step = step(row, session, &input)?;
    tell_step(told, session, &step)?;
    Ok(())
}

/// What the inputs of a line come to, a line each.
fn tell_line(alloc: Global, row: &Subscriber, line: &str, told: &mut String) -> Result<(), Fail> {
    let (before, rest) = line.split_once(" | ").ok_or("no input")?;
    let (inputs, _) = rest.split_once(" |").ok_or("no step")?;
    let session = session(alloc, before)?;
    for came in inputs.split(", ") {
        write!(told, "{before} | {came} |")?;
        tell_input(alloc, row, &session, came, told)?;
        told.push('\n')?;
    }
    Ok(())
}

/// What the line says that they come to, a line each.
fn want_line(line: &str, wanted: &mut String) -> Result<(), Fail> {
    let (before, rest) = line.split_once(" | ").ok_or("no input")?;
    let (inputs, want) = rest.split_once(" |").ok_or("no step")?;
    for came in inputs.split(", ") {
        writeln!(wanted, "{before} | {came} |{want}")?;
    }
    Ok(())
}

/// What the inputs of all lines come to, and what the lines say that they do.
fn tell_lines(alloc: Global, told: &mut String, wanted: &mut String) -> Result<(), Fail> {
    let row = subscriber(alloc)?;
    for line in STEPS.lines() {
        tell_line(alloc, &row, line, told)?;
        want_line(line, wanted)?;
    }
    Ok(())
}

/// A request for a second connection of a subscriber who has no name for it, no address, or neither.
const REJECTED: &str = "\
Connected 1/3 Active registered | 1/3 PdnRequest | | nas 1/3 PdnReject { pti: 45, cause: 27 };
Connected 1/3 Active registered +Made | 1/3 PdnRequest | |
Connected 1/3 Active registered | 1/4 PdnRequest | |
Connecting 1/3 Made registered | 1/3 PdnRequest | |
";

/// The subscriber, with a name and with an address for a second connection or without.
fn subscriber_with(alloc: Global, name: bool, address: bool) -> Result<Subscriber, AllocError> {
    let mut row = subscriber(alloc)?;
    if !name {
        row.apn2 = None;
    }
    if !address {
        row.ip2 = None;
    }
    Ok(row)
}

/// What the requests come to that are made for the subscriber.
fn tell_rejected(alloc: Global, row: &Subscriber) -> Result<String, Fail> {
    let mut told = String::new(alloc);
    for line in REJECTED.lines() {
        tell_line(alloc, row, line, &mut told)?;
    }
    Ok(told)
}

#[test]
fn second_connection_needs_a_name_and_an_address(rt: HostRuntime) -> Result<(), Fail> {
    let alloc = rt.alloc();
    for (name, address) in [(false, true), (true, false), (false, false)] {
        let row = subscriber_with(alloc, name, address)?;
        assert_eq!(rt; tell_rejected(alloc, &row)?.as_str(), REJECTED);
    }
    Ok(())
}

#[test]
fn each_row_is_the_standards(rt: HostRuntime) -> Result<(), Fail> {
    let alloc = rt.alloc();
    let mut told = String::new(alloc);
    let mut wanted = String::new(alloc);
    tell_lines(alloc, &mut told, &mut wanted)?;
    assert_eq!(rt; told.as_str(), wanted.as_str());
    Ok(())
}
