//! Pieces of the page.

ghost use Rattle.std.specs.Prelude.{◌≡◌, ◌++◌, OnOk};
ghost use Rattle.xk_show_page.specs.Page.{behind_picture, behind_source, escaped, escaped_byte, is_nameless};
ghost use Rattle.xk_show_page.specs.Page.{body_head, of_file, page_head, page_look, page_tail, script};

use crate::furniture::{
    COLOURS, CONTROLS, LISTS, MARKS, MOVER, PLACES, READER, SHOWER, body_begins, first_lines,
    page_ends, picture_begins, policy, source_begins, source_ends, style_ends, title_ends,
};
use std::alloc::AllocError;

/// Adds a text.
pub(crate) fn put(out: &mut Vec<u8>, text: &str) -> Result<(), AllocError>
    ensures { OnOk result (out.new.items ≡ out.old.items ++ text.now) }
{
    out.extend_from_slice(text.as_bytes())
}

/// Whether a program was read from standard input.
fn is_nameless(file: &str) -> bool
    ensures { result ≡ is_nameless file.now }
{
    file == "-"
}

/// Adds the name of a file behind `A run`.
fn push_of_file(out: &mut Vec<u8>, file: &str) -> Result<(), AllocError>
    ensures { OnOk result (out.new.items ≡ out.old.items ++ of_file file.now) }
{
    if is_nameless(file) {
        return Ok(());
    }
    put(out, " of ")?;
    push_escaped(out, file.as_bytes())
}

/// Adds what stands behind the first lines of the page of a file: the rest of its title, and the page's own style. Err where
/// memory was refused.
#[tactic(auto, unfolding(crate::specs::Page::page_look))]
pub fn push_look(out: &mut Vec<u8>, file: &str) -> Result<(), AllocError>
    ensures { OnOk result (out.new.items ≡ out.old.items ++ page_look file.now) }
{
    push_of_file(out, file)?;
    put(out, title_ends())?;
    put(out, COLOURS)?;
    put(out, PLACES)?;
    put(out, MARKS)
}

/// Adds what stands from the beginning of its body to that of the source text. Err where memory was refused.
#[tactic(auto, unfolding(crate::specs::Page::body_head))]
pub fn push_body_head(out: &mut Vec<u8>, file: &str) -> Result<(), AllocError>
    ensures { OnOk result (out.new.items ≡ out.old.items ++ body_head file.now) }
{
    put(out, body_begins())?;
    push_of_file(out, file)?;
    put(out, CONTROLS)?;
    put(out, source_begins())
}

/// Adds what stands before the source text of a file.
#[tactic(auto, unfolding(crate::specs::Page::page_head, crate::specs::Page::page_top))]
pub(crate) fn push_head(out: &mut Vec<u8>, file: &str) -> Result<(), AllocError>
    ensures { OnOk result (out.new.items ≡ out.old.items ++ page_head file.now) }
{
    put(out, first_lines())?;
    put(out, policy())?;
    push_look(out, file)?;
    put(out, style_ends())?;
    push_body_head(out, file)
}

/// Adds what stands between the source text and the picture. Err where memory was refused.
#[tactic(auto, unfolding(crate::specs::Page::behind_source))]
pub fn push_lists(out: &mut Vec<u8>) -> Result<(), AllocError>
    ensures { OnOk result (out.new.items ≡ out.old.items ++ behind_source) }
{
    put(out, source_ends())?;
    put(out, LISTS)?;
    put(out, picture_begins())
}

/// Adds what stands between the picture and the moments. Err where memory was refused.
#[tactic(auto, unfolding(crate::specs::Page::behind_picture))]
pub fn push_moments_begin(out: &mut Vec<u8>) -> Result<(), AllocError>
    ensures { OnOk result (out.new.items ≡ out.old.items ++ behind_picture) }
{
    put(
        out,
        "</div>\n</section>\n</main>\n<script type=\"text/plain\" id=\"moments\">\n",
    )
}

/// Adds the script that shows the moments. Err where memory was refused.
#[tactic(auto, unfolding(crate::specs::Page::script))]
pub fn push_script(out: &mut Vec<u8>) -> Result<(), AllocError>
    ensures { OnOk result (out.new.items ≡ out.old.items ++ script) }
{
    put(out, READER)?;
    put(out, SHOWER)?;
    put(out, MOVER)
}

/// Adds what stands behind the moments.
#[tactic(auto, unfolding(crate::specs::Page::page_tail))]
pub(crate) fn push_tail(out: &mut Vec<u8>) -> Result<(), AllocError>
    ensures { OnOk result (out.new.items ≡ out.old.items ++ page_tail) }
{
    put(out, "</script>\n<script>\n")?;
    push_script(out)?;
    put(out, page_ends())
}

/// Adds a byte of a source text, or what stands for it in HTML.
fn push_byte(out: &mut Vec<u8>, byte: u8) -> Result<(), AllocError>
    ensures { OnOk result (out.new.items ≡ out.old.items ++ escaped_byte byte) }
{
    match byte {
        b'&' => put(out, "&amp;"),
        b'<' => put(out, "&lt;"),
        b'\r' => put(out, "&#13;"),
        _ => {
            out.push(byte)?;
            Ok(())
        }
    }
}

/// Adds a source text as HTML has it. Err where memory was refused.
pub fn push_escaped(out: &mut Vec<u8>, text: &[u8]) -> Result<(), AllocError>
    ensures { OnOk result (out.new.items ≡ out.old.items ++ escaped text.now) }
{
    for byte in text {
        push_byte(out, *byte)?;
    }
    Ok(())
}
