// Where in a message the bytes end that were handed out.
ghost use Rattle.std.specs.Prelude.{◌≡◌, ◌≤◌, ◌+◌, ◌-◌, ◌^◌, min};
ghost use Rattle.glacier_host.specs.Courses.{after, course_of, most_of};

use glacier_http::{HeadSpans, HeadStep};

/// Where in a message the bytes end that were handed out.
#[derive(Clone, Copy)]
pub enum Course {
    /// Nothing of the next message was handed out.
    Between,
    /// So many bytes of a message are to be handed out yet.
    Inside(u64),
    /// All that comes is handed out: the head was bad, or the input ends before it is whole.
    Rest,
}

/// How many bytes the message has whose head this is.
fn message_length(spans: &HeadSpans) -> u64
    ensures { result ≡ min (spans.now.head_length + spans.now.content_length) (2 ^ 64 - 1) }
{
    u64::from(spans.head_length).saturating_add(spans.content_length)
}

impl Course {
    /// Where bytes of which nothing was handed out begin so.
    pub fn of(step: HeadStep) -> Course
        ensures { result ≡ course_of step }
    {
        match step {
            HeadStep::Need => Course::Between,
            HeadStep::Head(spans) => Course::Inside(message_length(&spans)),
            HeadStep::Bad(_) => Course::Rest,
        }
    }

    /// How many bytes may be handed out next into so much room.
    pub fn most(self, room: usize) -> usize
        ensures same { result ≡ most_of self room }
        ensures within { result ≤ room }
    {
        match self {
            Course::Between => 0,
            Course::Inside(left) => {
                if left < room as u64 {
                    left as usize
                } else {
                    room
                }
            }
            Course::Rest => room,
        }
    }

    /// Where they end when so many more were handed out.
    pub fn after(self, count: usize) -> Course
        ensures { result ≡ after self count }
    {
        match self {
            Course::Inside(left) => {
                if left <= count as u64 {
                    Course::Between
                } else {
                    Course::Inside(left - count as u64)
                }
            }
            Course::Between => Course::Between,
            Course::Rest => Course::Rest,
        }
    }
}
