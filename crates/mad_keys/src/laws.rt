//! What callers rely on: laws of the definitions, each a function that does nothing and states its law.

ghost use Rattle.mad_keys.specs.Laws.{HasOneEvent, AreEventsShort, BytesAreRead, BlocksAreRead, HasOneReading, CutsChangeNothing, EventsAreRead};

/// The same bytes are one event at most.
pub fn bytes_are_one_event()
    ensures { HasOneEvent }
{}

/// No event has more than 18 bytes. So a decoder that keeps 18 bytes of a front goes on as if it kept all.
pub fn events_are_short()
    ensures { AreEventsShort }
{}

/// The events that a decoder answers of bytes, one after another, are those of the bytes' items.
pub fn bytes_are_read()
    ensures { BytesAreRead }
{}

/// The same of a block, which ends in a pause.
pub fn blocks_are_read()
    ensures { BlocksAreRead }
{}

/// After what waited, bytes have exactly one reading.
pub fn bytes_have_one_reading()
    ensures { HasOneReading }
{}

/// A block that is cut in two, but not right after an ESC, has the same events.
pub fn cuts_change_nothing()
    ensures { CutsChangeNothing }
{}

/// The bytes of an event, alone in a block, are read as that event and nothing else where nothing waits.
pub fn events_are_read()
    ensures { EventsAreRead }
{}
