ghost use Rattle.std.specs.Prelude.{◌≡◌, ◌++◌, ℕ, List, Ok, true};
ghost use Rattle.st_codec.specs.Stream.{message_frame};
ghost use Rattle.st_host_frames.specs.Frame.{received};
ghost use Rattle.st_host_frames.specs.Fronts.{frame_at, front_shown};
ghost use Rattle.st_messages.specs.Ranges.{fits};
ghost use Rattle.st_messages.specs.declared.message.Message.{Message};

/// The frame of a message that fits is received as this message. So what a struct means is what its
/// frame is read as, and what is shown of a message's frame is the message's.
pub fn frames_are_received()
    ensures { (m : Message) → fits m ≡ true → received (message_frame m) ≡ Ok m }
{}

/// What is read of the front of a message's frame is the message's, whatever follows.
pub fn fronts_are_of_messages()
    ensures { (m : Message) (after : List ℕ) → fits m ≡ true → frame_at (message_frame m ++ after) ≡ Ok (front_shown m) }
{}
