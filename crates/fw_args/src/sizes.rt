//! The sizes of a deployment in words, for the programs that try and measure.

ghost use Rattle.std.specs.Prelude.{IfSome, IsTrue};
ghost use Rattle.fw_base.specs.Sizes.{accepted};

use fw_base::Params;

/// The number that a word is.
pub fn number_of(word: &str) -> Option<u32> {
    word.parse::<u32>().ok()
}

/// The sizes that eight words tell, in the order of a document's names, if a deployment may have them.
pub fn params_of(words: &[String]) -> Option<Params>
    ensures { IfSome result (λ p. IsTrue (accepted p)) }
{
    let [f, g, h, numbers, views, clients, stamps, pipe] = words else {
        return None;
    };
    let params = Params {
        f: number_of(f.as_str())?,
        g: number_of(g.as_str())?,
        h: number_of(h.as_str())?,
        numbers: number_of(numbers.as_str())?,
        views: number_of(views.as_str())?,
        clients: number_of(clients.as_str())?,
        stamps: number_of(stamps.as_str())?,
        pipe: number_of(pipe.as_str())?,
    };
    if params.are_accepted() {
        Some(params)
    } else {
        None
    }
}
