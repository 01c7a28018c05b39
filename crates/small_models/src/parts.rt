//! What is shown, part by part.

mod books;
mod broken_rules;
mod buffers;
mod entries;
mod long_lists;
mod places;

/// Shows all parts.
pub(crate) fn show_all(rt: &(impl Print + AllocGlobal)) -> anyhow::Result<()> {
    show_legend(rt)?;
    long_lists::show_all(rt)?;
    entries::show_all(rt)?;
    broken_rules::show_all(rt)?;
    places::show_all(rt)?;
    buffers::show_all(rt)?;
    books::show_all(rt)
}

fn show_legend(rt: &impl Print) -> anyhow::Result<()> {
    rt.println(
        "Orders on books over small models, with the answers and what is left of work lists and buffers.",
    )?;
    rt.println("")?;
    rt.println(
        "A line that names a model begins a new book over it; `then` goes on with the same book.",
    )?;
    rt.println("A row stands by its entries, each a variable and its value.")?;
    rt.println(
        "A listed state stands by its values, with the place and the move that it came from.",
    )?;
    rt.println("What was there before is kept at so many places, and so many bytes, at the end.")?;
    Ok(())
}
