// A child: a facet, an element of a sequence or a choice, an attribute.
ghost use Rattle.std.specs.Prelude.{◌++◌};
ghost use Rattle.text.specs.Text.{bytes};
ghost use Rattle.xsd_written.specs.ByRows.{attribute_text, empty_text, named_text, facet_word_text, facet_value_text, max_occurs_text, occurs_text, use_text, child_text};
ghost use Rattle.xsd_write.specs.Texts.{as_row};
ghost use Rattle.xsd_write.specs.Puts.{Writes};

use crate::part::Row;
use crate::put::Writer;
use rows::form::in_range;
use rows::numbers::joined;
use xsd_types::tags;

impl Writer<'_> {
    fn put_word(&mut self, tag: u32)
        ensures { Writes (bytes "<xs:" ++ facet_word_text tag) self.old self.new }
    {
        match tag {
            tags::ENUMERATION => self.put(b"<xs:enumeration"),
            tags::PATTERN => self.put(b"<xs:pattern"),
            tags::MIN_LENGTH => self.put(b"<xs:minLength"),
            tags::MAX_LENGTH => self.put(b"<xs:maxLength"),
            tags::MIN_INCLUSIVE => self.put(b"<xs:minInclusive"),
            tags::MAX_INCLUSIVE => self.put(b"<xs:maxInclusive"),
            tags::TOTAL_DIGITS => self.put(b"<xs:totalDigits"),
            _ => self.put(b"<xs:fractionDigits"),
        }
    }

    fn put_facet_value(&mut self, row: Row)
        ensures { Writes (attribute_text "value" (facet_value_text (as_row row.entry))) self.old self.new }
    {
        if in_range(tags::MIN_LENGTH, tags::MAX_LENGTH, row.numbers.tag) {
            self.put_number(b" value=", joined(row.numbers.a, row.numbers.b));
        } else if in_range(tags::TOTAL_DIGITS, tags::FRACTION_DIGITS, row.numbers.tag) {
            self.put_number(b" value=", row.numbers.a as u64);
        } else {
            self.put_value(b" value=", row.first_text());
        }
    }

    fn put_facet(&mut self, row: Row)
        ensures { Writes (empty_text (facet_word_text row.entry.numbers.tag) (attribute_text "value" (facet_value_text (as_row row.entry)))) self.old self.new }
    {
        self.put_word(row.numbers.tag);
        self.put_facet_value(row);
        self.put(b"/>");
    }

    fn put_max(&mut self, row: Row)
        ensures { Writes (attribute_text "maxOccurs" (max_occurs_text (as_row row.entry))) self.old self.new }
    {
        if row.numbers.tag == tags::BOUND_ELEMENT {
            self.put_number(b" maxOccurs=", row.numbers.b as u64);
        } else {
            self.put(b" maxOccurs=\"unbounded\"");
        }
    }

    // minOccurs and maxOccurs also where they are the defaults.
    fn put_occurs(&mut self, row: Row)
        ensures { Writes (occurs_text (as_row row.entry)) self.old self.new }
    {
        self.put_number(b" minOccurs=", row.numbers.a as u64);
        self.put_max(row);
    }

    // This one and `put_attribute` differ in what they put, and in nothing that could be left out.
    fn put_occurring(&mut self, row: Row)
        ensures { Writes (empty_text (bytes "element") (named_text (as_row row.entry) ++ occurs_text (as_row row.entry))) self.old self.new }
    {
        self.put_named(b"<xs:element name=", row);
        self.put_occurs(row);
        self.put(b"/>");
    }

    // "`use` only if required"
    fn put_use(&mut self, row: Row)
        ensures { Writes (use_text (as_row row.entry)) self.old self.new }
    {
        if row.numbers.a == 1 {
            self.put(b" use=\"required\"");
        }
    }

    fn put_attribute(&mut self, row: Row)
        ensures { Writes (empty_text (bytes "attribute") (named_text (as_row row.entry) ++ use_text (as_row row.entry))) self.old self.new }
    {
        self.put_named(b"<xs:attribute name=", row);
        self.put_use(row);
        self.put(b"/>");
    }

    pub fn put_child(&mut self, row: Row)
        ensures { Writes (child_text (as_row row.entry)) self.old self.new }
    {
        let tag = row.numbers.tag;
        if in_range(tags::ENUMERATION, tags::FRACTION_DIGITS, tag) {
            self.put_facet(row);
        } else if in_range(tags::BOUND_ELEMENT, tags::UNBOUNDED_ELEMENT, tag) {
            self.put_occurring(row);
        } else if tag == tags::CHOICE_VARIANT {
            self.put_element(row);
        } else {
            self.put_attribute(row);
        }
    }
}
