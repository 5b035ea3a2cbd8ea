//! What may happen to the streams of a device, and what it comes to.

/// An event. `a` is the place of a stream, `stamp` the stamp of its name, `n` the number of one of its messages, each from 1.
#[derive(Clone, Copy)]
pub enum EpochEvent {
    /// The agent of a stream puts a message on the link, under the present name of the stream.
    Send {
        /// The stream.
        a: u32,
        /// The message.
        n: u64,
    },
    /// A message arrives at the row.
    Arrive {
        /// The stream.
        a: u32,
        /// The stamp of the name that it was sent under.
        stamp: u64,
        /// The message.
        n: u64,
    },
    /// The answer to an arrival comes back to the agent of its stream.
    Learn {
        /// The number of the event, from 1, that was the arrival.
        i: u64,
    },
}

/// What an event comes to.
#[derive(Clone, Copy, Debug)]
pub enum EpochAnswer {
    /// The message was put on the link.
    Sent,
    /// The agent may not send it: it is outside of the window, there is none, or the stream is over. Void events change nothing.
    VoidWindow,
    /// What was to arrive is not on the link.
    VoidLink,
    /// The message was committed before: its number.
    Repeat(u64),
    /// Another name has come behind its own: so many of its messages are committed, and no more will be.
    OverAt(u64),
    /// Its name has nothing committed and is below the current one, whose stamp is this.
    Low(u64),
    /// It was committed: so many messages of all streams are.
    Committed(u64),
    /// Messages before it have not come: so many of its name are committed.
    Ahead(u64),
    /// The agent knew it, or it is of no use to it.
    Old,
    /// The messages up to this one are acknowledged.
    Acked(u64),
    /// The stream has a new name, of this stamp.
    Renamed(u64),
    /// The stream is over.
    Over,
}
