// What a start is given, and what comes of it.
#![tactic(auto)]

ghost use Rattle.std.specs.Prelude.{◌≡◌};
ghost use Rattle.script.specs.Printing.{page, typed};
ghost use Rattle.starting.specs.Starts.{start_text, store_of};

use memory::Stored;
use script::printing::Page;
use state::StartRefusal;

// What is stored: settings under a save count, or nothing.
pub fn store_of(stored: Option<u16>, image: &[u8]) -> Option<Stored>
    ensures { result ≡ store_of stored image.now }
{
    let save_count = stored?;
    Some(Stored {
        settings: image::read(image),
        save_count,
    })
}

// What a start prints.
pub fn start_line(answer: Result<(), StartRefusal>, out: &mut [u8]) -> usize
    ensures { page out.new result ≡ typed (page out.old 0) (start_text answer) }
{
    let mut line = Page::on(out);
    match answer {
        Ok(()) => line.text(b"ok\n"),
        Err(StartRefusal::ProfileBreaksARule) => line.text(b"refused 8\n"),
    }
    line.at
}
