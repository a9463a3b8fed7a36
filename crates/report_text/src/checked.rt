//! The lines of a certificate that was accepted.
ghost use Rattle.std.specs.Prelude.{◌≡◌, ◌++◌};
ghost use Rattle.report_text.specs.ReportText.{checked_text, count_line, size_lines};

use crate::page::Page;
use cert_text::Cert;

impl Page {
    #[tactic(auto, unfolding(crate::specs::ReportText::count_line))]
    pub(crate) fn count_line(&mut self, name: &[u8], count: u64)
        ensures { self.new ≡ self.old ++ count_line name.now count }
    {
        self.put(name);
        self.put(b" ");
        self.put_count(count);
        self.put(b"\n");
    }

    // How much a certificate holds.
    #[tactic(auto, unfolding(crate::specs::ReportText::size_lines))]
    fn size_lines(&mut self, cert: &Cert)
        ensures { self.new ≡ self.old ++ size_lines cert.now }
    {
        self.count_line(b"columns", cert.problem.columns as u64);
        self.count_line(b"rows", cert.problem.rows.as_slice().len() as u64);
        self.count_line(b"segments", cert.segments.as_slice().len() as u64);
        self.count_line(b"intervals", cert.intervals.as_slice().len() as u64);
    }

    /// Adds the report of a certificate that was accepted: how much it holds, and the verdict.
    #[tactic(auto, unfolding(crate::specs::ReportText::checked_text))]
    pub(crate) fn checked(&mut self, cert: &Cert)
        ensures { self.new ≡ self.old ++ checked_text cert.now }
    {
        self.put(b"quantreg check 1\n");
        self.size_lines(cert);
        self.put(b"accepted\n");
        self.put(b"end\n");
    }
}
