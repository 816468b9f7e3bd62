//! Cases of developments, as far as the object's code goes.
use lc_base::Fault;
use lc_object_text::object_at;
use lc_sexp::Forms;
use std::alloc::Global;
use std::io;

/// How many points the object of a development has.
fn count_points(alloc: Global, text: &[u8]) -> Result<usize, Fault> {
    let forms = Forms::read(alloc, text)?;
    let object = object_at(alloc, forms.cursor())?;
    Ok(object.parts().points.len())
}

/// Prints the answer to a development, as far as its object goes.
pub fn answer_object(rt: &HostRuntime, name: &str, text: &[u8]) -> io::Result<()> {
    match count_points(rt.alloc(), text) {
        Ok(points) => println!(rt; "{name}: an object of {points} points"),
        Err(fault) => println!(rt; "{name}: {fault}"),
    }
}
