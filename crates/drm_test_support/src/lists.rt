//! Lists of answers.

use drm_table::{Answer, Apart, AuditPage, AuditRow, ShownList};

/// Returns the first 64 of these ids.
fn shown(ids: &[u32]) -> ShownList {
    let mut list = ShownList::new();
    for id in ids {
        if list.ids().len() < 64 {
            list.push(*id);
        }
    }
    list
}

/// Returns the answer that lists CRTCs, connectors, encoders and framebuffers.
pub fn resources_of(ids: [&[u32]; 4]) -> Result<Answer, Apart> {
    let [crtcs, connectors, encoders, framebuffers] = ids.map(|ids| shown(ids));
    Ok(Answer::Resources {
        crtcs,
        connectors,
        encoders,
        framebuffers,
    })
}

/// Returns a row of an audit.
pub const fn row(a: u64, b: u64, c: u64, d: u64) -> AuditRow {
    AuditRow { a, b, c, d }
}

/// Returns the answer with the first 16 of these rows.
pub fn page_of(rows: &[AuditRow]) -> Result<Answer, Apart> {
    let mut page = AuditPage::new();
    for row in rows {
        if page.rows().len() < 16 {
            page.push(*row);
        }
    }
    Ok(Answer::Audit { page })
}

/// Returns the answer that lists the first 64 of these ids.
pub fn list_of(ids: &[u32]) -> Result<Answer, Apart> {
    Ok(Answer::List { list: shown(ids) })
}
