// What a command asks of the library, on the image and the layout table alone.
#![tactic(auto)]

ghost use Rattle.std.specs.Prelude.{◌≡◌};
ghost use Rattle.partitions.specs.Answers.{write_outcome, wrote, read_outcome, told};
ghost use Rattle.settings_list.specs.BoardList.{list_outcome};
ghost use Rattle.settings_list.specs.Listing.{Lists};

use partitions::{Reply, Spot, Written};
use settings_words::Command;

// Writes the command's item.
pub fn write(image: &mut [u8], layout: &[u8], command: Command, contents: &[u8]) -> Written
    ensures { wrote result image.new ≡ write_outcome command.partitions layout.now image.old command.item contents.now command.budget }
{
    partition_store::write(
        image,
        command.partitions as usize,
        layout,
        command.item,
        contents,
        command.budget,
    )
}

// Where the data of the command's item are.
pub fn read(image: &[u8], layout: &[u8], command: Command) -> Spot
    ensures { told result ≡ read_outcome command.partitions layout.now image.now command.item }
{
    partition_store::read(image, command.partitions as usize, layout, command.item)
}

// Lists the board.
pub fn list(text: &mut [u8], image: &[u8], layout: &[u8], command: Command) -> Result<usize, Reply>
    ensures { Lists (list_outcome command.partitions layout.now image.now) result text.old text.new }
{
    settings_list::list(text, image, command.partitions as usize, layout)
}
