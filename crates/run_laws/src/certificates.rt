//! The law of written certificates. The function does nothing: its contract is the law.

ghost use Rattle.run_laws.specs.Certificates.{WrittenCertificatesPass};

use cert_text::same_content;

/// What `certify` writes for any words and any table is within the limits of what is read, is read as the
/// certificate that was written, and makes all conditions true. So `check` of its text answers that it is
/// accepted, or that no memory was found, and nothing else.
pub fn written_certificates_pass()
    ensures { WrittenCertificatesPass }
{
    same_content();
}
