// Laws of the definitions.
ghost use Rattle.dc09_message.specs.Blocks.{BlocksAreWritten, WrittenBlocksAreRead};
ghost use Rattle.dc09_message.specs.Contents.{ContentIsWritten, WrittenContentIsRead};

/// Blocks that are read are written so.
pub fn law_blocks_are_written()
    ensures { BlocksAreWritten }
{}

/// Blocks that are written so are read, where no further block begins their tail.
pub fn law_written_blocks_are_read()
    ensures { WrittenBlocksAreRead }
{}

/// The content that is read of a message is written so: its bytes are those of a heartbeat or of a report that keeps it.
pub fn law_content_is_written()
    ensures { ContentIsWritten }
{}

/// The content of bytes that are written so is read.
pub fn law_written_content_is_read()
    ensures { WrittenContentIsRead }
{}
