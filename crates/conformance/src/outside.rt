// The test cases of what document 01 leaves outside, "radio, pairing, timers, Training Status, the User Data Service", and of what none of its
// calls does. Spin down, which it leaves outside too, is in document 02.

// Section 4.3.
pub(crate) const GENERIC: &str = "FTMS/SR/SGGIT/SER/BV-01-C: outside (radio: discovery)
FTMS/SR/SGGIT/SDP/BV-01-C: outside (radio: discovery)
FTMS/SR/SGGIT/CHA/BV-01-C: outside (radio: discovery)
FTMS/SR/SGGIT/CHA/BV-02-C: outside (radio: discovery)
FTMS/SR/SGGIT/CHA/BV-03-C: outside (radio: discovery)
FTMS/SR/SGGIT/CHA/BV-04-C: outside (radio: discovery)
FTMS/SR/SGGIT/CHA/BV-05-C: outside (radio: discovery)
FTMS/SR/SGGIT/CHA/BV-06-C: outside (radio: discovery)
FTMS/SR/SGGIT/CHA/BV-07-C: outside (radio: discovery)
FTMS/SR/SGGIT/CHA/BV-08-C: outside (Training Status)
FTMS/SR/SGGIT/CHA/BV-09-C: outside (radio: discovery)
FTMS/SR/SGGIT/CHA/BV-10-C: outside (radio: discovery)
FTMS/SR/SGGIT/CHA/BV-11-C: outside (radio: discovery)
FTMS/SR/SGGIT/CHA/BV-12-C: outside (radio: discovery)
FTMS/SR/SGGIT/CHA/BV-13-C: outside (radio: discovery)
FTMS/SR/SGGIT/CHA/BV-14-C: outside (radio: discovery)
FTMS/SR/SGGIT/CHA/BV-15-C: outside (radio: discovery)
FTMS/SR/SGGIT/CHA/BV-16-C: outside (service 1.0.1: Feature indications)
FTMS/SR/SGGIT/ISFC/BV-01-C: outside (service 1.0.1: Feature indications)
";

// What follows the Feature value in section 4.4, and section 4.5.
pub(crate) const READS: &str = "FTMS/SR/CR/BV-02-C: outside (Training Status)
FTMS/SR/CR/BV-03-C: outside (no call reads a range)
FTMS/SR/CR/BV-04-C: outside (no call reads a range)
FTMS/SR/CR/BV-05-C: outside (no call reads a range)
FTMS/SR/CR/BV-06-C: outside (no call reads a range)
FTMS/SR/CR/BV-07-C: outside (no call reads a range)
FTMS/SR/CON/BV-01-C: outside (radio: descriptors)
FTMS/SR/CON/BV-02-C: outside (radio: descriptors)
FTMS/SR/CON/BV-03-C: outside (radio: descriptors)
FTMS/SR/CON/BV-04-C: outside (radio: descriptors)
FTMS/SR/CON/BV-05-C: outside (radio: descriptors)
FTMS/SR/CON/BV-06-C: outside (radio: descriptors)
FTMS/SR/CON/BV-07-C: outside (Training Status)
FTMS/SR/CON/BV-08-C: outside (radio: descriptors)
FTMS/SR/CON/BV-09-C: outside (radio: descriptors)
";

// Section 4.7.
pub(crate) const TRAINING: &str = "FTMS/SR/TSN/BV-01-C: outside (Training Status)
FTMS/SR/TSN/BV-02-C: outside (Training Status)
FTMS/SR/TSN/BV-03-C: outside (Training Status)
";
