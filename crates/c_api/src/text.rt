// `buslog` for a host: a text in, its listing out.
ghost use Rattle.lines.specs.Buslog.{buslog, Printed};

use lines::buslog::{OUTPUT, buslog};

#[unsafe(no_mangle)]
pub extern "C" fn lpspi_buslog(input: &[u8], out: &mut [u8; OUTPUT]) -> usize
    ensures { Printed (buslog input.now) out.old out.new result }
{
    buslog(input, out)
}
