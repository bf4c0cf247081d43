// SPDX-License-Identifier: Apache-2.0 OR MIT
//! A paper's page.
ghost use Rattle.cr_json.specs.Put.{Appends};
ghost use Rattle.cr_print.specs.Page.{page_content};

use cr_base::Page;
use cr_json::Object;
use std::alloc::AllocError;

/// Bytes that suffice for a page beside its texts, mostly.
const PAGE_ROOM: usize = 1_024;

/// Returns the bytes that a page takes, mostly: more where its texts need many escapes, or its lists are long.
pub(crate) fn page_room(page: &Page) -> usize {
    let abstract_ = page
        .abstract_
        .as_ref()
        .map_or(0, |text| text.as_str().len());
    let title = page.title.as_ref().map_or(0, |text| text.as_str().len());
    abstract_.saturating_add(title).saturating_add(PAGE_ROOM)
}

/// Appends the content of a page.
pub(crate) fn append_page(into: &mut Vec<u8>, page: &Page) -> Result<(), AllocError>
    ensures { Appends result into.old into.new (page_content page.now) }
{
    let mut object = Object::open(into)?;
    object.told(into, "abstract", &page.abstract_)?;
    object.told(into, "authors", &page.authors)?;
    object.told(into, "bid", &page.bid)?;
    object.told(into, "bids", &page.bids)?;
    object.truth(into, "conflict", page.conflict)?;
    object.told(into, "conflicts", &page.conflicts)?;
    object.told(into, "decision", &page.decision)?;
    object.told(into, "declared", &page.declared)?;
    object.told(into, "label", &page.label)?;
    object.number(into, "paper", page.paper.number())?;
    object.told(into, "reviewers", &page.reviewers)?;
    object.told(into, "tags", &page.tags)?;
    object.told(into, "title", &page.title)?;
    object.told(into, "versions", &page.versions)?;
    object.truth(into, "withdrawn", page.withdrawn)?;
    object.close(into)
}
